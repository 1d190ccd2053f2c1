// Lookup: the matches in the lent words, their fields in the lent text.
// Stays, point 2: C has names for plain and strict, and a header read once serves the others; each is thin, over `answer`.
// Stays, point 7: `asked` and `strict` are the caller's; a const parameter would compile each loop twice (docs/DECISIONS.md: 8 kB).
ghost use mathlib.Core.{Path.{◌≡◌}, List.{[]}};
ghost use Rattle.std.specs.Prelude.{◌/◌, ◌≤◌, length, take};
ghost use Rattle.numbers.specs.Lists.{zeros};
ghost use Rattle.table.specs.{inner.Agreeing.{Agrees}, Hits.{width, slots}};
ghost use Rattle.zones.specs.{Fields.{fields_of}, Lent.{Filled, replied, replied_of}};
ghost use Rattle.zones.specs.Lookup.{safezone_bits, zones_from, matched_in, Kept, looked_with, looked_by, looked_up, looked_strictly, looked_listed, Told};

use crate::fields::write_fields;
use header::field::zero;
use header::header::{Head, head_by};
use header::zero::zero_both;
use numbers::float::bits::bits_of;
use numbers::float::fixed::factor;
use numbers::float::nearest::of_u64;
use numbers::float::root::sqrt;
use numbers::refusal::Refusal;
use table::find::{Matches, find_in};
use table::listed::find_listed;
use table::location::Location;

// How many matches, the end mark, the safezone's bits (0 if not asked), and how much of the text is used.
#[derive(Clone, Copy)]
pub struct Zones {
    pub matches: usize,
    pub mark: u8,
    pub safezone: u32,
    pub used: usize,
}

fn safezone(asked: bool, least: u64, precision: u8) -> u32
    ensures { result ≡ safezone_bits asked least precision }
{
    if asked {
        return bits_of(sqrt(of_u64(least)) * 90.0 / factor(precision));
    }
    0
}

// After a search: the fields of its matches go into a text that is zero.
fn tell(
    file: &[u8],
    head: Head,
    asked: bool,
    found: Matches,
    hits: &[u32],
    text: &mut [u8],
) -> Result<Zones, Refusal>
    requires { (text.old ≡ zeros (length text.old)) × (found.count ≤ length hits.now / width) }
    ensures { Agrees (Told (length text.old) text.new asked head.preamble.precision found)
        (fields_of file.now head (length text.old) (take found.count (slots hits.now)) []) result }
{
    let preamble = head.preamble;
    let matches = found.count;
    let used = write_fields(text, file, head, hits, matches)?;
    let safezone = safezone(asked, found.least, preamble.precision);
    Ok(Zones {
        matches,
        mark: found.mark,
        safezone,
        used,
    })
}

// What a search found, told in a text that is zero.
fn look(
    file: &[u8],
    head: Head,
    asked: bool,
    found: Result<Matches, Refusal>,
    hits: &[u32],
    text: &mut [u8],
) -> Result<Zones, Refusal>
    requires { (text.old ≡ zeros (length text.old)) × Kept found hits.now }
    ensures { Agrees (Filled (length hits.now) (length text.old) hits.now text.new)
        (zones_from file.now head asked (length text.old) (matched_in found hits.now)) result }
{
    let found = found?;
    tell(file, head, asked, found, hits, text)
}

// The answer to what a search found, whatever rows it went through; on a refusal both buffers are zero.
pub(crate) fn answer(
    file: &[u8],
    head: Head,
    asked: bool,
    found: Result<Matches, Refusal>,
    hits: &mut [u32],
    text: &mut [u8],
) -> Result<Zones, Refusal>
    requires { Kept found hits.old }
    ensures { replied result hits.new text.new
        ≡ replied_of (length hits.old) (length text.old) (zones_from file.now head asked (length text.old) (matched_in found hits.old)) }
{
    zero(text);
    let zones = look(file, head, asked, found, hits, text);
    if zones.is_err() {
        zero_both(hits, text);
    }
    zones
}

// In a file whose header was read; any header is taken.
// Stays parameters: docs/ name it beside what it takes.
pub fn lookup_in(
    file: &[u8],
    head: Head,
    location: Location,
    asked: bool,
    hits: &mut [u32],
    text: &mut [u8],
) -> Result<Zones, Refusal>
    ensures { replied result hits.new text.new
        ≡ looked_with file.now head location asked (length hits.old) (length text.old) }
{
    let found = find_in(file, head, location, asked, hits);
    answer(file, head, asked, found, hits, text)
}

// In a file whose header is read plainly or strictly.
// Stays parameters: those of `lookup` and `lookup_strict`, handed on.
fn lookup_by(
    file: &[u8],
    strict: bool,
    location: Location,
    asked: bool,
    hits: &mut [u32],
    text: &mut [u8],
) -> Result<Zones, Refusal>
    ensures { replied result hits.new text.new
        ≡ looked_by strict file.now location asked (length hits.old) (length text.old) }
{
    let head = match head_by(file, strict) {
        Ok(head) => head,
        Err(why) => {
            zero_both(hits, text);
            return Err(why);
        }
    };
    lookup_in(file, head, location, asked, hits, text)
}

// Stays parameters: docs/ name it beside what it takes.
pub fn lookup(
    file: &[u8],
    location: Location,
    asked: bool,
    hits: &mut [u32],
    text: &mut [u8],
) -> Result<Zones, Refusal>
    ensures { replied result hits.new text.new
        ≡ looked_up file.now location asked (length hits.old) (length text.old) }
{
    lookup_by(file, false, location, asked, hits, text)
}

// The same, but a number that the file's end cuts is refused: 31.
// Stays parameters: docs/ name it beside what it takes.
pub fn lookup_strict(
    file: &[u8],
    location: Location,
    asked: bool,
    hits: &mut [u32],
    text: &mut [u8],
) -> Result<Zones, Refusal>
    ensures { replied result hits.new text.new
        ≡ looked_strictly file.now location asked (length hits.old) (length text.old) }
{
    lookup_by(file, true, location, asked, hits, text)
}

// Among rows that are given as words, in a file whose header was read: `lookup_in` with these rows for the table's. Any header and any words are taken.
// Stays parameters: docs/ name it beside what it takes.
pub fn lookup_listed(
    file: &[u8],
    head: Head,
    location: Location,
    asked: bool,
    records: &[u32],
    numbers: &[u32],
    hits: &mut [u32],
    text: &mut [u8],
) -> Result<Zones, Refusal>
    ensures { replied result hits.new text.new
        ≡ looked_listed file.now head location asked records.now numbers.now (length hits.old) (length text.old) }
{
    let found = find_listed(file, head, location, asked, records, numbers, hits);
    answer(file, head, asked, found, hits, text)
}
