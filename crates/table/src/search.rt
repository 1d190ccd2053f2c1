// The search: row by row from the table's start, until the table ends, a row stops it, or a fault is met.
// Stays, point 7: `asked` is the caller's question; a const parameter would compile each loop twice (docs/DECISIONS.md: 8 kB).
ghost use Rattle.std.specs.Prelude.{◌≡◌, ◌/◌, length, Ok};
ghost use Rattle.border.specs.Encoding.{version_of};
ghost use Rattle.verdict.specs.Verdict.{told};
ghost use Rattle.numbers.specs.Lists.{zeros};
ghost use Rattle.table.specs.{Hits.{width}, inner.Agreeing.{Agrees}, Search.{kind_of, judged_turn, row_turn, judge_in, searched, Sought}};

use crate::codes::{BROKEN, EXCLUDED, IN_ZONE, NO_KIND, ON_SEGMENT, ON_VERTEX, UNREADABLE, WHOLE};
use crate::hits::{Hit, put_hit, room};
use crate::pass::pass_over;
use crate::rest::rest_mark;
use crate::rows::{Row, after, row_of, start_at};
use crate::table::{entry_at, holds, is_above};
use border::place::Point;
use border::reader::{Encoding, Version};
use header::header::Head;
use numbers::fault::Fault;
use numbers::refusal::{Refusal, plain};
use std::num::wrapping_add_u32;
use verdict::judge::{Judged, point_in_polygon};
use verdict::step::Verdict;

// What one row does to the search: it goes on with the least squared distance so far, it met a zone, or it stops.
#[derive(Clone, Copy)]
pub enum Turn {
    On(u64),
    Met { hit: Hit, least: u64 },
    Stopped { mark: u8, least: u64 },
    Refused(u8),
}

// How a search ended: the number of hits, the end mark, the least squared distance.
#[derive(Clone, Copy)]
pub struct Ended {
    pub count: usize,
    pub mark: u8,
    pub least: u64,
}

fn kind_of(verdict: Verdict) -> u32
    ensures { result ≡ kind_of verdict }
{
    match verdict {
        Verdict::NotInZone => NO_KIND,
        Verdict::InZone => IN_ZONE,
        Verdict::InExcludedZone => EXCLUDED,
        Verdict::OnBorderVertex => ON_VERTEX,
        Verdict::OnBorderSegment => ON_SEGMENT,
    }
}

pub(crate) fn version_of(byte: u8) -> Version
    ensures { result ≡ version_of byte }
{
    if byte == 0 {
        Version::Plain
    } else {
        Version::Packed
    }
}

// The turn of a row whose border was judged.
pub(crate) fn judged(row: Row, judgement: Result<Judged, Fault>) -> Turn
    ensures { result ≡ judged_turn row (told judgement) }
{
    let judged = match judgement {
        Ok(judged) => judged,
        Err(fault) => return Turn::Refused(fault.number()),
    };
    let least = judged.least;
    let Some(verdict) = judged.verdict else {
        return Turn::Stopped {
            mark: BROKEN,
            least,
        };
    };
    let kind = kind_of(verdict);
    if kind == NO_KIND {
        return Turn::On(least);
    }
    let hit = Hit {
        polygon: row.id,
        metadata: row.metadata,
        kind,
        place: (row.place % 0x1_0000_0000) as u32,
    };
    Turn::Met { hit, least }
}

// The judging of the border at a place of the data.
pub(crate) fn judge(
    file: &[u8],
    head: Head,
    fix: Point,
    asked: bool,
    polygon: u32,
    least: u64,
) -> Result<Judged, Fault>
    ensures { told result ≡ judge_in file.now head fix asked polygon least }
{
    let preamble = head.preamble;
    let sections = head.sections;
    let start = sections.data;
    let place = wrapping_add_u32(start, polygon) as usize;
    let encoding = Encoding {
        version: version_of(preamble.version),
        data: start,
        strict: head.strict,
    };
    point_in_polygon(file, encoding, place, fix.lat, fix.lon, asked, least)
}

// Stays parameters: docs/ name it beside what it takes.
pub fn on_row(file: &[u8], head: Head, fix: Point, asked: bool, row: Row, least: u64) -> Turn
    ensures { result ≡ row_turn (judge_in file.now head fix asked) fix row least }
{
    if holds(row.bounds, fix) {
        let judgement = judge(file, head, fix, asked, row.polygon, least);
        return judged(row, judgement);
    }
    Turn::On(least)
}

// Stays apart: it makes a value of its own type; one of equal shape makes another's.
pub(crate) fn end_with(count: usize, mark: u8, least: u64) -> Result<Ended, Refusal>
    ensures { result ≡ Ok (record { count = count; mark = mark; least = least }) }
{
    Ok(Ended { count, mark, least })
}

// The hits go into the lent words, in the order in which they are met.
// Stays a loop: where the next row begins is known when this one is read.
pub(crate) fn search(
    file: &[u8],
    head: Head,
    fix: Point,
    asked: bool,
    hits: &mut [u32],
) -> Result<Ended, Refusal>
    requires { hits.old ≡ zeros (length hits.old) }
    ensures { Agrees (Sought (length hits.old) hits.new)
        (searched file.now head fix asked (length hits.old / width)) result }
{
    let sections = head.sections;
    let end = sections.metadata as usize;
    let room = room(hits);
    let mut count = 0;
    let mut least = 0xffff_ffff_ffff_ffff;
    let start = start_at(sections.table as usize);
    let mut at = pass_over(file, end, fix, start);
    while at.place < end {
        let entry = match entry_at(file, at.place, head.strict) {
            Ok(entry) => entry,
            Err(stop) => {
                let Some(why) = stop.refusal() else {
                    return end_with(count, UNREADABLE, least);
                };
                return Err(why);
            }
        };
        if is_above(entry.bounds, fix) {
            return end_with(
                count,
                rest_mark(file, head.strict, end, fix, entry.next),
                least,
            );
        }
        let row = row_of(at, entry);
        let later = after(row);
        at = pass_over(file, end, fix, later);
        let turn = on_row(file, head, fix, asked, row, least);
        match turn {
            Turn::On(closer) => least = closer,
            Turn::Met { hit, least: closer } => {
                if room <= count {
                    return Err(Fault::HitsFull.alone());
                }
                put_hit(hits, count, hit);
                count += 1;
                least = closer;
            }
            Turn::Stopped { mark, least: last } => return end_with(count, mark, last),
            Turn::Refused(number) => return Err(plain(number)),
        }
    }
    end_with(count, WHOLE, least)
}
