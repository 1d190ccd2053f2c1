// What both lookups do in a file whose header was read: its precision is looked at, its table searched, and the hits merged.
// Stays, point 7: `asked` is the caller's question; a const parameter would compile each loop twice (docs/DECISIONS.md: 8 kB).
ghost use Rattle.std.specs.Prelude.{◌≡◌, ◌/◌, length};
ghost use Rattle.numbers.specs.Lists.{zeros};
ghost use Rattle.table.specs.{Hits.{width}, inner.Agreeing.{Agrees}, Find.{fix_of, is_precision, matched_with, found_with, finding, Matching}};

use crate::location::Location;
use crate::merge::merge_front;
use crate::search::search;
use border::place::{FixedLat, FixedLon, Point};
use header::header::Head;
use header::zero::zero_words;
use numbers::fault::Fault;
use numbers::float::fixed::to_fixed;
use numbers::refusal::Refusal;

// The number of matches, the end mark and the least squared distance.
#[derive(Clone, Copy)]
pub struct Matches {
    pub count: usize,
    pub mark: u8,
    pub least: u64,
}

pub fn fix_of(location: Location, precision: u8) -> Point
    ensures { result ≡ fix_of location precision }
{
    Point {
        lat: FixedLat(to_fixed(location.lat, 90.0, precision)),
        lon: FixedLon(to_fixed(location.lon, 180.0, precision)),
    }
}

pub fn is_precision(precision: u8) -> bool
    ensures { result ≡ is_precision precision }
{
    1 <= precision && precision <= 32
}

// The matches go into lent words that are zero. For this crate alone.
pub(crate) fn matches_in(
    file: &[u8],
    head: Head,
    location: Location,
    asked: bool,
    hits: &mut [u32],
) -> Result<Matches, Refusal>
    requires { hits.old ≡ zeros (length hits.old) }
    ensures { Agrees (Matching (length hits.old) hits.new)
        (matched_with file.now head location asked (length hits.old / width)) result }
{
    let preamble = head.preamble;
    let precision = preamble.precision;
    if !is_precision(precision) {
        return Err(Fault::BadPrecision.alone());
    }
    let fix = fix_of(location, precision);
    let ended = search(file, head, fix, asked, hits)?;
    let count = merge_front(hits, ended.count);
    Ok(Matches {
        count,
        mark: ended.mark,
        least: ended.least,
    })
}

// The matches at a location, in a file whose header was read; any header is taken.
// Stays parameters: docs/ name it beside what it takes.
pub fn find_in(
    file: &[u8],
    head: Head,
    location: Location,
    asked: bool,
    hits: &mut [u32],
) -> Result<Matches, Refusal>
    ensures { finding result hits.new ≡ found_with file.now head location asked (length hits.old) }
{
    zero_words(hits);
    let found = matches_in(file, head, location, asked, hits);
    if found.is_err() {
        zero_words(hits);
    }
    found
}
