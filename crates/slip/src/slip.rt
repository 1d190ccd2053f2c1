// The slip.
ghost use Rattle.std.specs.Prelude.{◌≡◌, ◌≤◌, ◌/◌, length, take};
ghost use Rattle.numbers.specs.Lists.{zeros};
ghost use Rattle.slip.specs.{Slip.{within, on_globe, slip_at, slipped_at, slipped, replied}, Told.{ink_of, slip_with, Wrote, Filled, zeroed_unless}};
ghost use Rattle.table.specs.{inner.Agreeing.{Agrees}, Hits.{width, slots}};

use crate::hours::hours_of;
use crate::lines::put_line;
use atlas::lookup::lookup_beside;
use header::field::zero;
use header::header::{Head, head_of};
use header::zero::zero_both;
use numbers::fault::Fault;
use numbers::refusal::Refusal;
use request::read::{Fix, read_request};
use table::location::Location;

// Length of the line, how many matches, seconds east of UT.
#[derive(Clone, Copy)]
pub struct Stamped {
    pub length: usize,
    pub matches: usize,
    pub offset: i32,
}

// Degrees from -limit to limit; NaN is not.
fn is_within(degrees: f32, limit: f32) -> bool
    ensures { result ≡ within limit degrees }
{
    if -limit <= degrees {
        return degrees <= limit;
    }
    false
}

fn is_on_globe(fix: Fix) -> bool
    ensures { result ≡ on_globe fix }
{
    if is_within(fix.lat, 90.0) {
        return is_within(fix.lon, 180.0);
    }
    false
}

// After a whole search with so many matches, in a line that is zero.
fn stamp(
    fix: Fix,
    map: &[u8],
    head: Head,
    zones: &[u8],
    hits: &[u32],
    count: usize,
    out: &mut [u8],
) -> Result<Stamped, Refusal>
    requires { (count ≤ length hits.now / width) × (out.old ≡ zeros (length out.old)) }
    ensures { Agrees (Wrote (length out.old) out.new)
        (ink_of fix map.now head zones.now (length out.old) (take count (slots hits.now))) result }
{
    if count == 0 {
        return Err(Fault::NoZone.alone());
    }
    let all = hours_of(map, head, zones, fix, hits, count)?;
    if !all.agree {
        return Err(Fault::HoursDiffer.alone());
    }
    let first = all.first;
    let length = put_line(out, map, head, zones, fix, hits, count, first);
    if out.len() < length {
        return Err(Fault::TextFull.at(length));
    }
    Ok(Stamped {
        length,
        matches: count,
        offset: first.offset,
    })
}

// In a map whose header was read.
// Stays apart: the part of `slip_at` behind the header; the two share no line.
fn slip_in(
    fix: Fix,
    map: &[u8],
    head: Head,
    atlas: &[u32],
    zones: &[u8],
    hits: &mut [u32],
    text: &mut [u8],
    out: &mut [u8],
) -> Result<Stamped, Refusal>
    requires { out.old ≡ zeros (length out.old) }
    ensures { Agrees (Filled (length hits.old) (length text.old) (length out.old) hits.new text.new out.new)
        (slip_with fix map.now head atlas.now zones.now (length hits.old) (length text.old) (length out.old)) result }
{
    let location = Location {
        lat: fix.lat,
        lon: fix.lon,
    };
    let found = lookup_beside(map, head, atlas, location, false, hits, text)?;
    if found.mark != 1 {
        return Err(Fault::NotWhole.with(found.mark as u64));
    }
    stamp(fix, map, head, zones, hits, found.matches, out)
}

// In a line that is zero.
fn fill(
    fix: Fix,
    map: &[u8],
    atlas: &[u32],
    zones: &[u8],
    hits: &mut [u32],
    text: &mut [u8],
    out: &mut [u8],
) -> Result<Stamped, Refusal>
    requires { out.old ≡ zeros (length out.old) }
    ensures { Agrees (Filled (length hits.old) (length text.old) (length out.old) hits.new text.new out.new)
        (slip_at fix map.now atlas.now zones.now (length hits.old) (length text.old) (length out.old)) result }
{
    if !is_on_globe(fix) {
        return Err(Fault::NoPlace.alone());
    }
    let head = head_of(map)?;
    slip_in(fix, map, head, atlas, zones, hits, text, out)
}

// Nothing stays of what was lent where there is no slip.
fn or_zeroed(
    answer: Result<Stamped, Refusal>,
    hits: &mut [u32],
    text: &mut [u8],
    out: &mut [u8],
) -> Result<Stamped, Refusal>
    ensures { replied result hits.new text.new out.new ≡ zeroed_unless answer hits.old text.old out.old }
{
    if answer.is_err() {
        zero_both(hits, text);
        zero(out);
    }
    answer
}

// The slip at a fix, through the map's atlas, or without one where there are no words; any words are taken.
// Stays parameters: docs/PROMISES.md names it, so it takes what it took; C lends each list by itself.
pub fn slip_at(
    fix: Fix,
    map: &[u8],
    atlas: &[u32],
    zones: &[u8],
    hits: &mut [u32],
    text: &mut [u8],
    out: &mut [u8],
) -> Result<Stamped, Refusal>
    ensures { replied result hits.new text.new out.new
        ≡ slipped_at fix map.now atlas.now zones.now (length hits.old) (length text.old) (length out.old) }
{
    zero(out);
    let stamped = fill(fix, map, atlas, zones, hits, text, out);
    or_zeroed(stamped, hits, text, out)
}

// The slip that a request asks for.
// Stays parameters: docs/PROMISES.md names it, so it takes what it took; C lends each list by itself.
pub fn slip(
    request: &[u8],
    map: &[u8],
    atlas: &[u32],
    zones: &[u8],
    hits: &mut [u32],
    text: &mut [u8],
    out: &mut [u8],
) -> Result<Stamped, Refusal>
    ensures { replied result hits.new text.new out.new
        ≡ slipped request.now map.now atlas.now zones.now (length hits.old) (length text.old) (length out.old) }
{
    match read_request(request) {
        Ok(fix) => slip_at(fix, map, atlas, zones, hits, text, out),
        Err(why) => or_zeroed(Err(why), hits, text, out),
    }
}
