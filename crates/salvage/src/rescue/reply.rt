// Salvage of a damaged file into a lent list and a lent output.
// Stays, point 5: any header is taken with any file, so a struct of `file, head` would hold no fact.
ghost use Rattle.std.specs.Prelude.{◌^◌, min, true, ◌&&◌, ◌≡◌, leb, length};
ghost use Rattle.header.specs.Header.{head_by};
ghost use Rattle.numbers.specs.{Lists.{zeros}, Reply.{given}};
ghost use Rattle.salvage.specs.Salvage.{salvaged_of, salvaged};
ghost use Rattle.salvage.specs.inner.Rescue.Told.{replied, Filled};

use crate::rescue::lines::put_lines;
use crate::rescue::whole::put_whole;
use header::header::{Head, head_by};
use header::zero::zero_both;
use numbers::fault::Fault;
use numbers::limits::LARGEST_FILE;
use numbers::refusal::Refusal;

// The new file's length, and how many entries were dropped and kept.
#[derive(Clone, Copy)]
pub struct Counts {
    pub size: usize,
    pub lines: usize,
    pub kept: usize,
}

// Whether list and file have room; no file is longer than 1 GiB.
fn has_room(size: usize, room: usize, words: usize, list: usize) -> bool
    ensures { result ≡ (leb size (min room (2 ^ 30)) && leb words list) }
{
    size <= room && size <= LARGEST_FILE && words <= list
}

// Of a file that opens, into outputs that are zero; of a refusal's outputs nothing is said.
fn fill(file: &[u8], head: Head, dropped: &mut [u32], out: &mut [u8]) -> Result<Counts, Refusal>
    requires { (given head ≡ head_by true file.now) × (dropped.old ≡ zeros (length dropped.old)) × (out.old ≡ zeros (length out.old)) }
    ensures { Filled (salvaged_of file.now (length dropped.old) (length out.old)) (length dropped.old) (length out.old) result dropped.new out.new }
{
    let size = put_whole(file, head, out)?;
    let lines = put_lines(file, head, dropped);
    if !has_room(size, out.len(), lines.words, dropped.len()) {
        return Err(Fault::FileFull.alone());
    }
    if lines.kept == 0 {
        return Err(Fault::NothingLeft.alone());
    }
    Ok(Counts {
        size,
        lines: lines.words / 2,
        kept: lines.kept,
    })
}

// A new file with each entry that is whole, and the list of the others.
pub fn salvage(file: &[u8], dropped: &mut [u32], out: &mut [u8]) -> Result<Counts, Refusal>
    ensures { replied result dropped.new out.new ≡ salvaged file.now (length dropped.old) (length out.old) }
{
    zero_both(dropped, out);
    let head = head_by(file, true)?;
    let counts = fill(file, head, dropped, out);
    if counts.is_err() {
        zero_both(dropped, out);
        return counts;
    }
    counts
}
