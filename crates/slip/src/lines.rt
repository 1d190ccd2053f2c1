// The line, into a lent buffer: what does not fit is left out and counted.
// Stays, point 4: bytes go into a lent line, each by an equation (Put), which Display has not; a name in two parts is no slice.
ghost use Rattle.std.specs.Prelude.{◌≡◌, ◌+◌, ◌≤◌, ◌<◌, ◌/◌, length, take, IfOk};
ghost use Rattle.line.specs.{Clock.{offset_text}, Put.{Put}};
ghost use Rattle.request.specs.Told.{shown};
ghost use Rattle.slip.specs.{Hour.{name_of, hour_of, hours_from}, Line.{clock_text, between, shown_text, zone_text}};
ghost use Rattle.slip.specs.Told.{name_in, hour_at, Stands, is_named, is_named_in, added_by, Lined, Inked, FirstAt};
ghost use Rattle.table.specs.Hits.{width, slots, hit_at};
ghost use Rattle.zones.specs.Simple.{LiesParts};

use crate::hour::{Spot, hour_of};
use crate::name::{is_same, zone_of};
use header::header::Head;
use line::clock::{put_date, put_shown, put_span, put_time, put_weekday};
use line::put::{put, put_all};
use numbers::refusal::Refusal;
use request::read::Fix;
use table::hits::hit_at;
use tzif::local::{Local, offset_bits};
use zones::simple::Parts;

// `-` below zero, else `+`, and the size of the offset.
fn put_offset(out: &mut [u8], at: usize, spot: Spot) -> usize
    ensures { Put out.old at (offset_text spot.offset) out.new result }
{
    let offset = spot.offset;
    let bits = offset_bits(Local {
        offset,
        daylight: 0,
        length: 0,
    });
    if offset < 0 {
        let size = put(out, at, b'-');
        return put_span(out, size, 0x1_0000_0000 - bits);
    }
    let size = put(out, at, b'+');
    put_span(out, size, bits)
}

// Weekday, date, time, offset.
fn put_clock(out: &mut [u8], spot: Spot) -> usize
    ensures { Put out.old 0 (clock_text spot.reading spot.offset) out.new result }
{
    let reading = spot.reading;
    let weekday = put_weekday(out, 0, reading.weekday);
    let first = put(out, weekday, b' ');
    let date = put_date(out, first, reading);
    let second = put(out, date, b' ');
    let time = put_time(out, second, reading);
    let third = put(out, time, b' ');
    put_offset(out, third, spot)
}

// The name, each of its bytes unmasked.
fn put_name(out: &mut [u8], at: usize, map: &[u8], name: Parts) -> usize
    requires { LiesParts (length map.now) name }
    ensures { Put out.old at (shown_text (name_in map.now name)) out.new result }
{
    let one = name.one;
    let two = name.two;
    let first = one.start;
    let second = two.start;
    let next = put_shown(out, at, &map[first..first + one.size], 0x80);
    put_shown(out, next, &map[second..second + two.size], 0x80)
}

// Abbreviation, space, name.
fn put_zone(out: &mut [u8], at: usize, map: &[u8], zones: &[u8], spot: Spot) -> usize
    requires { Stands (length map.now) (length zones.now) spot }
    ensures { Put out.old at (zone_text (hour_at map.now zones.now spot)) out.new result }
{
    let place = spot.place;
    let next = put_shown(out, at, &zones[place..place + spot.size], 0);
    let space = put(out, next, b' ');
    put_name(out, space, map, spot.name)
}

// Whether one of the first so many matches has the name.
fn is_before(map: &[u8], head: Head, hits: &[u32], count: usize, name: Parts) -> bool
    requires { LiesParts (length map.now) name × (count ≤ length hits.now / width) }
    ensures { result ≡ is_named_in map.now head (name_in map.now name) (take count (slots hits.now)) }
{
    for i in 0..count {
        let hit = hit_at(hits, i);
        if is_called(map, head, hit.metadata, name) {
            return true;
        }
    }
    false
}

// Whether a match has the name.
fn is_called(map: &[u8], head: Head, metadata: u32, name: Parts) -> bool
    requires { LiesParts (length map.now) name }
    ensures { result ≡ is_named (name_of map.now head metadata) (name_in map.now name) }
{
    match zone_of(map, head, metadata) {
        Ok(other) => is_same(map, other, name),
        Err(_) => false,
    }
}

// ` ` before the first zone, `, ` before each other.
fn put_between(out: &mut [u8], at: usize, i: usize) -> usize
    ensures { Put out.old at (between i) out.new result }
{
    if i == 0 {
        return put(out, at, b' ');
    }
    put_all(out, at, b", ")
}

// What the match with this index adds.
fn put_added(
    out: &mut [u8],
    at: usize,
    map: &[u8],
    head: Head,
    zones: &[u8],
    hits: &[u32],
    i: usize,
    spot: Spot,
) -> usize
    requires { Stands (length map.now) (length zones.now) spot × (i ≤ length hits.now / width) }
    ensures { Put out.old at (added_by (is_named_in map.now head (name_in map.now spot.name) (take i (slots hits.now))) i
        (hour_at map.now zones.now spot)) out.new result }
{
    if is_before(map, head, hits, i, spot.name) {
        return at;
    }
    let next = put_between(out, at, i);
    put_zone(out, next, map, zones, spot)
}

// What the match with this index says. The first one's is known, and most slips have no other.
fn hour_again(
    map: &[u8],
    head: Head,
    zones: &[u8],
    fix: Fix,
    hits: &[u32],
    i: usize,
    first: Spot,
) -> Result<Spot, Refusal>
    requires { (i < length hits.now / width) × FirstAt map.now head zones.now fix.instant (hit_at hits.now 0) first }
    ensures { (shown result (hour_at map.now zones.now) ≡ hour_of map.now head zones.now fix.instant (i + 1) (hit_at hits.now i))
        × IfOk result (Stands (length map.now) (length zones.now)) }
{
    if i == 0 {
        return Ok(first);
    }
    hour_of(map, head, zones, fix, i + 1, hit_at(hits, i))
}

// Each different zone, in order of its first match.
fn put_zones(
    out: &mut [u8],
    at: usize,
    map: &[u8],
    head: Head,
    zones: &[u8],
    fix: Fix,
    hits: &[u32],
    count: usize,
    first: Spot,
) -> usize
    requires { (count ≤ length hits.now / width) × FirstAt map.now head zones.now fix.instant (hit_at hits.now 0) first }
    ensures { Lined (hours_from map.now head zones.now fix.instant 1 (take count (slots hits.now)))
        out.old at out.new result }
{
    let mut next = at;
    for i in 0..count {
        let Ok(spot) = hour_again(map, head, zones, fix, hits, i, first) else {
            return next;
        };
        next = put_added(out, next, map, head, zones, hits, i, spot);
    }
    next
}

// The line, and its length.
pub(crate) fn put_line(
    out: &mut [u8],
    map: &[u8],
    head: Head,
    zones: &[u8],
    fix: Fix,
    hits: &[u32],
    count: usize,
    spot: Spot,
) -> usize
    requires { (count ≤ length hits.now / width) × FirstAt map.now head zones.now fix.instant (hit_at hits.now 0) spot }
    ensures { Inked (hours_from map.now head zones.now fix.instant 1 (take count (slots hits.now)))
        (hour_at map.now zones.now spot) out.old out.new result }
{
    let next = put_clock(out, spot);
    put_zones(out, next, map, head, zones, fix, hits, count, spot)
}
