// A zone's file in a bundle. Its name comes in two parts under a mask, so that nobody needs room to join them as they stand in a map.
ghost use Rattle.std.specs.Prelude.{◌≡◌, ◌+◌, ◌*◌, ◌≤◌, ◌<◌, length};
ghost use Rattle.bundle.specs.{Bundle.{is_entry, seek_of, find_of}, Named.{name_of}, Spelled.{spelled}, Told.{told_sought}};

use crate::bytes::{agrees, byte_of, word_at};
use crate::head::read_head;
use crate::wanted::Wanted;
use numbers::fault::Fault;
use numbers::refusal::Refusal;

// Where a file begins in the bundle, and its length.
#[derive(Clone, Copy)]
pub struct File {
    pub start: u64,
    pub length: u64,
}

// Where a name has its last byte; 0 for one that no entry can have. Names that begin alike mostly differ there.
fn probe_of(prefix: &[u8], id: &[u8]) -> usize
    ensures { result < 40 }
{
    let size = prefix.len() + id.len();
    if 40 < size {
        return 0;
    }
    if size == 0 {
        return 0;
    }
    size - 1
}

impl<'a> Wanted<'a> {
    fn new(prefix: &'a [u8], id: &'a [u8], mask: u8) -> Wanted<'a>
        ensures { name_of result ≡ spelled mask prefix.now id.now }
    {
        let probe = probe_of(prefix, id);
        let byte = byte_of(prefix, id, probe, mask);
        Wanted {
            prefix,
            id,
            mask,
            probe,
            byte,
        }
    }

    fn is_entry(self, bundle: &[u8], place: usize) -> bool
        requires { place + 40 ≤ length bundle.now }
        ensures { result ≡ is_entry bundle.now (name_of self.entry) place }
    {
        if 40 < self.prefix.len() {
            return false;
        }
        if 40 - self.prefix.len() < self.id.len() {
            return false;
        }
        agrees(bundle, place, self.prefix, self.id, 40, self.mask)
    }

    // Whether an entry has the name, one of whose bytes is asked first: a bundle has hundreds of entries.
    fn is_here(self, bundle: &[u8], place: usize) -> bool
        requires { place + 40 ≤ length bundle.now }
        ensures { result ≡ is_entry bundle.now (name_of self.entry) place }
    {
        if bundle[place + self.probe] != self.byte {
            return false;
        }
        self.is_entry(bundle, place)
    }
}

// The first entry of the name, of so many from a place on.
fn seek(bundle: &[u8], place: usize, count: usize, wanted: Wanted) -> Option<usize>
    requires { place + 52 * count ≤ length bundle.now }
    ensures { told_sought result ≡ seek_of count bundle.now (name_of wanted.entry) place }
{
    // Stays a loop: it steps by the 52 bytes of an entry.
    let mut at = place;
    let mut left = count;
    while 0 < left {
        if wanted.is_here(bundle, at) {
            return Some(at);
        }
        at += 52;
        left -= 1;
    }
    None
}

// The file of a zone whose name is the prefix and the id, joined, each byte XOR the mask.
pub fn find(bundle: &[u8], prefix: &[u8], id: &[u8], mask: u8) -> Result<File, Refusal>
    ensures { result ≡ find_of bundle.now (spelled mask prefix.now id.now) }
{
    let head = read_head(bundle)?;
    let index = head.index as usize;
    let count = ((head.start - head.index) / 52) as usize;
    let Some(place) = seek(bundle, index, count, Wanted::new(prefix, id, mask)) else {
        return Err(Fault::NoFile.alone());
    };
    let start = head.start + word_at(bundle, place + 40);
    let length = word_at(bundle, place + 44);
    if head.end < start + length {
        return Err(Fault::DamagedBundle.at(place));
    }
    Ok(File { start, length })
}
