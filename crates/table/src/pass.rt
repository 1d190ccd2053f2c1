// The rows that a search passes over: plainly read, not above the location, and not holding it. A reader of the search may skip this
// file: it only hurries. Any other row is left to the search.
// Stays, point 3: where the next row begins is known when this one is read.
ghost use mathlib.Core.{Path.{◌≡◌}, Bool.{true, false}};
ghost use Rattle.std.specs.Prelude.{Some, ◌+◌, ◌<◌, ◌≤◌, length};
ghost use Rattle.table.specs.{inner.Passing.{Shortly, Paired, Lons, MissedAt, AboveAt, Passing, PassedOver, Skipping, SkippedOver}, Table.{holds}};

use crate::rows::{Cursor, after, row_of};
use crate::table::{Bounded, Bounds, Entry, bounds_of, is_above, lat_below, lon_between};
use crate::usual::{bounds_at, is_over, is_under};
use border::place::{FixedLon, Point};
use numbers::point::signed;
use numbers::varint::Number;

// Six numbers of at most three bytes each.
const LONGEST: usize = 18;

// Where the steps of an entry stand, behind four bounds of three bytes each.
const STEPS: usize = 12;

fn wide(byte: u8) -> u64
    ensures { (result ≡ byte) × (result < 256) }
{
    byte as u64
}

fn is(value: u64, place: usize) -> Option<Number>
    ensures { result ≡ Some (record { value = value; place = place }) }
{
    Some(Number { value, place })
}

// A number of at most three bytes. For this file alone, where the table is not near the file's end.
fn short_at(file: &[u8], place: usize) -> Option<Number>
    requires { place + 2 < length file.now }
    ensures { Shortly file.now place result }
{
    let low = wide(file[place]);
    if low < 128 {
        return is(low, place + 1);
    }
    let middle = wide(file[place + 1]);
    if middle < 128 {
        return is(low % 128 + 128 * middle, place + 2);
    }
    let high = wide(file[place + 2]);
    if high < 128 {
        return is(low % 128 + 128 * (middle % 128 + 128 * high), place + 3);
    }
    None
}

// Two such numbers, one behind the other.
fn pair_at(file: &[u8], place: usize) -> Option<(Number, Number)>
    requires { place + 5 < length file.now }
    ensures { Paired file.now place result }
{
    let first = short_at(file, place)?;
    let second = short_at(file, first.place)?;
    Some((first, second))
}

// Whether a box that is not above the location may hold it. Its longitudes stand at two places and are worked out only where its upper latitude does not decide.
fn may_hold(file: &[u8], bounds: Bounds, fix: Point, west: usize, east: usize) -> bool
    requires { Lons file.now bounds west east }
    ensures { result ≡ false → holds bounds fix ≡ false }
{
    if lat_below(bounds.max_lat, fix.lat) {
        return false;
    }
    let Some(low) = short_at(file, west) else {
        return true;
    };
    let Some(high) = short_at(file, east) else {
        return true;
    };
    lon_between(
        FixedLon(signed(low.value)),
        fix.lon,
        FixedLon(signed(high.value)),
    )
}

// The box at a place, if it is neither above the location nor holds it.
// Stays apart from `above_at`: behind the same two lines it tests the longitudes too.
fn missed_at(file: &[u8], fix: Point, place: usize) -> Option<Bounded>
    requires { place + 17 < length file.now }
    ensures { MissedAt file.now fix place result }
{
    if is_under(file, place, fix) {
        let bounds = bounds_at(file, place);
        return Some(Bounded {
            bounds,
            next: place + STEPS,
        });
    }
    let (south, west) = pair_at(file, place)?;
    let (north, east) = pair_at(file, west.place)?;
    let bounds = bounds_of(south.value, west.value, north.value, east.value);
    if is_above(bounds, fix) {
        return None;
    }
    if may_hold(file, bounds, fix, south.place, north.place) {
        return None;
    }
    Some(Bounded {
        bounds,
        next: east.place,
    })
}

// The box at a place, if it is above the location.
// Stays apart from `missed_at`: it gives the boxes above the location, which the other leaves.
fn above_at(file: &[u8], fix: Point, place: usize) -> Option<Bounded>
    requires { place + 17 < length file.now }
    ensures { AboveAt file.now fix place result }
{
    if is_over(file, place, fix) {
        let bounds = bounds_at(file, place);
        return Some(Bounded {
            bounds,
            next: place + STEPS,
        });
    }
    let (south, west) = pair_at(file, place)?;
    let (north, east) = pair_at(file, west.place)?;
    let bounds = bounds_of(south.value, west.value, north.value, east.value);
    if is_above(bounds, fix) {
        return Some(Bounded {
            bounds,
            next: east.place,
        });
    }
    None
}

// The turn of the row at a cursor.
fn pass_row(file: &[u8], fix: Point, at: Cursor) -> Option<Cursor>
    requires { at.place + 17 < length file.now }
    ensures { Passing file.now fix at result }
{
    let missed = missed_at(file, fix, at.place)?;
    let (metadata, polygon) = pair_at(file, missed.next)?;
    let entry = Entry {
        bounds: missed.bounds,
        metadata: metadata.value,
        polygon: polygon.value,
        next: polygon.place,
    };
    let row = row_of(at, entry);
    Some(after(row))
}

// The same where the search has stopped: where the entry at a place ends, if it is above the location.
fn skip_row(file: &[u8], fix: Point, place: usize) -> Option<usize>
    requires { place + 17 < length file.now }
    ensures { Skipping file.now fix place result }
{
    let above = above_at(file, fix, place)?;
    let (_, polygon) = pair_at(file, above.next)?;
    Some(polygon.place)
}

fn lesser(a: usize, b: usize) -> usize
    ensures { (result ≤ a) × (result ≤ b) }
{
    if a < b { a } else { b }
}

// The first row from a cursor on that is not passed over, or where the table ends.
pub(crate) fn pass_over(file: &[u8], end: usize, fix: Point, start: Cursor) -> Cursor
    ensures { PassedOver file.now end fix start result }
{
    if file.len() < LONGEST {
        return start;
    }
    let stop = lesser(end, file.len() - LONGEST + 1);
    let mut at = start;
    while at.place < stop {
        let Some(next) = pass_row(file, fix, at) else {
            return at;
        };
        at = next;
    }
    at
}

// The first entry from a place on that is not skipped, or where the table ends.
pub(crate) fn skip_over(file: &[u8], end: usize, fix: Point, start: usize) -> usize
    ensures { SkippedOver file.now end fix start result }
{
    if file.len() < LONGEST {
        return start;
    }
    let stop = lesser(end, file.len() - LONGEST + 1);
    let mut place = start;
    while place < stop {
        let Some(next) = skip_row(file, fix, place) else {
            return place;
        };
        if end < next {
            return place;
        }
        place = next;
    }
    place
}
