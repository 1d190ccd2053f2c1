// The search of rows that are given as words: records of seven words, and the numbers of those to look at. Every row is looked at: none stops the search.
// Stays, point 7: `asked` is the caller's question; a const parameter would compile each loop twice (docs/DECISIONS.md: 8 kB).
ghost use Rattle.std.specs.Prelude.{ℕ, Bool, List, ◌≡◌, ◌*◌, ◌/◌, ◌^◌, ◌<◌, length};
ghost use Rattle.border.specs.declared.place.Point.{Point};
ghost use Rattle.header.specs.declared.header.Head.{Head};
ghost use Rattle.numbers.specs.Lists.{zeros};
ghost use Rattle.table.specs.{Find.{finding, matched_by, finding_of, Matching}, GivenRows.{record_word, box_at, row_at, row_with, searched_by, found_listed}, Hits.{width}};
ghost use Rattle.table.specs.{inner.Agreeing.{Agrees}, Search.{row_turn, judge_in, Sought}};
ghost use Rattle.verdict.specs.Verdict.{told, Judgement};

use crate::codes::WHOLE;
use crate::find::{Matches, fix_of, is_precision};
use crate::hits::{put_hit, room};
use crate::location::Location;
use crate::merge::merge_front;
use crate::rows::Row;
use crate::search::{Ended, Turn, end_with, judge, judged};
use crate::table::{Bounds, bounds_of, holds};
use border::place::Point;
use header::header::Head;
use header::zero::zero_words;
use numbers::fault::Fault;
use numbers::refusal::{Refusal, plain};
use verdict::judge::Judged;

// How many words a record has.
const RECORD: usize = 7;

// A coordinate has its 32 bits in a word, so that twice the word is its signed form.
fn twice(word: u32) -> u64
    ensures { (result ≡ 2 * word) × (word < 2 ^ 32) }
{
    2 * word as u64
}

pub(crate) fn wide(word: u32) -> usize
    ensures { (result ≡ word) × (result < 2 ^ 32) }
{
    word as usize
}

fn box_at(records: &[u32], k: usize) -> Bounds
    requires { k < length records.now / 7 }
    ensures { result ≡ box_at records.now k }
{
    let at = RECORD * k;
    let south = twice(records[at + 3]);
    let west = twice(records[at + 4]);
    let north = twice(records[at + 5]);
    let east = twice(records[at + 6]);
    bounds_of(south, west, north, east)
}

// The row of a record whose box was read.
fn row_at(records: &[u32], k: usize, bounds: Bounds) -> Row
    requires { (k < length records.now / 7) × (k < 2 ^ 32) × (bounds ≡ box_at records.now k) }
    ensures { result ≡ row_at records.now k }
{
    let at = RECORD * k;
    let place = wide(records[at]);
    Row {
        place,
        id: k as u32,
        metadata: records[at + 1],
        polygon: records[at + 2],
        bounds,
        next: 0,
    }
}

// How a search of records judges a border: `Unmarked` by the border's place alone, marked.rt by marks too. A search is compiled for each apart.
pub(crate) trait Judging {
    // What the row of a record has for the place of its border, and how the border of a row is judged.
    ghost border: { List ℕ → ℕ → ℕ };

    ghost judged_by: { Self → Point → List ℕ → ℕ → ℕ → Judgement };

    // The border of record k, whose place is given.
    fn judge(&self, fix: Point, k: usize, polygon: u32, least: u64) -> Result<Judged, Fault>
        ensures { (records : List ℕ) → polygon ≡ record_word records k 2
            → told result ≡ judged_by self.now fix records (border records k) least };
}

// In a file with its header, without marks; and whether the least distance is asked for.
#[derive(Clone, Copy)]
pub(crate) struct Unmarked<'a> {
    pub(crate) file: &'a [u8],
    pub(crate) head: Head,
    pub(crate) asked: bool,
}

impl<'a> Judging for Unmarked<'a> {
    ghost border = { λ records k. record_word records k 2 };

    ghost judged_by = { λ self fix _. judge_in self.file.now self.head fix self.asked };

    fn judge(&self, fix: Point, _k: usize, polygon: u32, least: u64) -> Result<Judged, Fault> {
        judge(self.file, self.head, fix, self.asked, polygon, least)
    }
}

// The turn of a record: the rest of it is read only where its box holds the location.
fn on_record<J: Judging>(judging: &J, fix: Point, records: &[u32], k: usize, least: u64) -> Turn
    requires { (k < length records.now / 7) × (k < 2 ^ 32) }
    ensures { result ≡ row_turn (J.judged_by judging.now fix records.now) fix (row_with J.border records.now k) least }
{
    let bounds = box_at(records, k);
    if holds(bounds, fix) {
        let row = row_at(records, k, bounds);
        let judgement = judging.judge(fix, k, row.polygon, least);
        return judged(row, judgement);
    }
    Turn::On(least)
}

// The hits go into the lent words, in the order in which they are met.
fn search_records<J: Judging>(
    judging: &J,
    fix: Point,
    records: &[u32],
    numbers: &[u32],
    hits: &mut [u32],
) -> Result<Ended, Refusal>
    requires { hits.old ≡ zeros (length hits.old) }
    ensures { Agrees (Sought (length hits.old) hits.new)
        (searched_by J.border (J.judged_by judging.now fix records.now) fix records.now numbers.now (length hits.old / width)) result }
{
    let room = room(hits);
    let rows = records.len() / RECORD;
    let mut count = 0;
    let mut least = 0xffff_ffff_ffff_ffff;
    for number in numbers {
        let k = wide(*number);
        if rows <= k {
            return Err(Fault::OtherIndex.alone());
        }
        let turn = on_record(judging, fix, records, k, least);
        match turn {
            Turn::On(closer) => least = closer,
            Turn::Met { hit, least: closer } => {
                if room <= count {
                    return Err(Fault::HitsFull.alone());
                }
                put_hit(hits, count, hit);
                count += 1;
                least = closer;
            }
            Turn::Stopped { mark, least: last } => return end_with(count, mark, last),
            Turn::Refused(number) => return Err(plain(number)),
        }
    }
    end_with(count, WHOLE, least)
}

// The matches go into lent words that are zero.
fn matches_of<J: Judging>(
    judging: &J,
    head: Head,
    location: Location,
    records: &[u32],
    numbers: &[u32],
    hits: &mut [u32],
) -> Result<Matches, Refusal>
    requires { hits.old ≡ zeros (length hits.old) }
    ensures { Agrees (Matching (length hits.old) hits.new)
        (matched_by head location (λ fix. searched_by J.border (J.judged_by judging.now fix records.now) fix records.now numbers.now (length hits.old / width))) result }
{
    let preamble = head.preamble;
    let precision = preamble.precision;
    if !is_precision(precision) {
        return Err(Fault::BadPrecision.alone());
    }
    let fix = fix_of(location, precision);
    let ended = search_records(judging, fix, records, numbers, hits)?;
    let count = merge_front(hits, ended.count);
    Ok(Matches {
        count,
        mark: ended.mark,
        least: ended.least,
    })
}

// The matches at a location among the rows given, with their borders judged in one way.
pub(crate) fn find_by<J: Judging>(
    judging: &J,
    head: Head,
    location: Location,
    records: &[u32],
    numbers: &[u32],
    hits: &mut [u32],
) -> Result<Matches, Refusal>
    ensures { finding result hits.new ≡ finding_of (length hits.old)
        (matched_by head location (λ fix. searched_by J.border (J.judged_by judging.now fix records.now) fix records.now numbers.now (length hits.old / width))) }
{
    zero_words(hits);
    let found = matches_of(judging, head, location, records, numbers, hits);
    if found.is_err() {
        zero_words(hits);
    }
    found
}

// The matches at a location among the rows given, in a file whose header was read; any header and any words are taken. Refused: 16, 36 at a number that has
// no record, and what judging and room give.
// Stays parameters: docs/ name it beside what it takes.
pub fn find_listed(
    file: &[u8],
    head: Head,
    location: Location,
    asked: bool,
    records: &[u32],
    numbers: &[u32],
    hits: &mut [u32],
) -> Result<Matches, Refusal>
    ensures { finding result hits.new
        ≡ found_listed file.now head location asked records.now numbers.now (length hits.old) }
{
    let unmarked = Unmarked { file, head, asked };
    find_by(&unmarked, head, location, records, numbers, hits)
}
