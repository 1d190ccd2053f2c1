// Fields so far from a location that no edge in them comes nearer than the least distance so far.
// Stays, point 7: `asked` is the caller's question; a const parameter would compile each loop twice (docs/DECISIONS.md: 8 kB).
ghost use Rattle.std.specs.Prelude.{◌≡◌, ◌+◌, ◌*◌, ◌<◌, ◌≤◌};
ghost use Rattle.verdict.specs.inner.Gliding.{lowered, LiftedTo, FarSpan, FarAbout, OpensFar, Opens};

use crate::field::{Field, Span, field_of, held};
use crate::step::Tally;
use border::place::Point;

// A coordinate near 0 is counted from 2^22 below it, so that it is a plain number.
const ZERO: u64 = 4194304;

const MOST: u64 = 8388608;

const NOT_NEAR: u64 = 8388609;
// No number near 0 is so far from another that its square reaches this.
const TOO_FAR: u64 = 0x4000_0000_0000;

// Stays a function: no conversion; far numbers become one.
fn lifted(x: i32) -> u64
    ensures { LiftedTo x result }
{
    if x < -4194304 {
        return NOT_NEAR;
    }
    if 4194304 < x {
        return NOT_NEAR;
    }
    (x + 4194304) as u64
}

// A point's coordinates, so counted.
#[derive(Clone, Copy)]
pub(crate) struct Place {
    pub lat: u64,
    pub lon: u64,
}

// Stays apart from `spot_of` (edge.rt): it gives lifted numbers, that one floats.
fn place_of(p: Point) -> Place
    ensures { (LiftedTo p.lat.0 result.lat) × (LiftedTo p.lon.0 result.lon) }
{
    Place {
        lat: lifted(p.lat.0),
        lon: lifted(p.lon.0),
    }
}

fn span(low: u64, high: u64) -> Span
    requires { (low ≤ 33554432) × (high ≤ 33554432) }
    ensures { (result.low ≡ lowered low) × (result.high ≡ lowered high) }
{
    Span {
        low: low as i32 - 4194304,
        high: high as i32 - 4194304,
    }
}

// The numbers more than so much away from a coordinate, on the side where another lies, and on that one's side of 0.
fn far_span(fix: u64, from: u64, more: u64) -> Span
    requires { (fix ≤ 8388608) × (more ≤ 8388609) }
    ensures { FarSpan (lowered fix) more result }
{
    if fix < from {
        let low = fix + more;
        if from < ZERO {
            return span(low, ZERO);
        }
        if low < ZERO {
            return span(ZERO, MOST);
        }
        return span(low, MOST);
    }
    if fix < more {
        return span(fix + more, 0);
    }
    let high = fix - more;
    if ZERO < from {
        return span(ZERO, high);
    }
    if ZERO < high {
        return span(0, ZERO);
    }
    span(0, high)
}

// How many numbers lie between two.
fn gap(one: u64, other: u64) -> u64
    requires { (one ≤ 8388609) × (other ≤ 8388609) }
    ensures { result ≤ 8388609 }
{
    one.abs_diff(other).saturating_sub(1)
}

// A number up to the gap whose square is at least this; 0 if none was found. One step of Newton's for the root: whatever it gives is tried.
fn reach(gap: u64, square: u64) -> u64
    requires { (gap ≤ 8388609) × (square ≤ 70368744177664) }
    ensures { (result ≤ 8388609) × (0 < result → square ≤ result * result) }
{
    if gap == 0 {
        return 0;
    }
    let r = (gap + square / gap) / 2 + 1;
    if gap < r {
        return 0;
    }
    if r * r < square {
        return 0;
    }
    r
}

// The field about a point that is so far from the location by either coordinate.
fn far_about(at: Place, p: Place, lat: u64, lon: u64, from: Point) -> Option<Field>
    requires { (at.lat ≤ 8388608) × (at.lon ≤ 8388608) × (lat ≤ 8388609) × (lon ≤ 8388609) }
    ensures { FarAbout at.lat lat at.lon lon «from» result }
{
    let field = Field {
        lat: far_span(at.lat, p.lat, lat),
        lon: far_span(at.lon, p.lon, lon),
    };
    held(field, from)
}

// A field about a point, far enough from the location: by the latitudes, else by the longitudes, whose squares count four times.
fn far_field(fix: Point, from: Point, least: u64) -> Option<Field>
    ensures { OpensFar fix least «from» result }
{
    let at = place_of(fix);
    if MOST < at.lat {
        return None;
    }
    if MOST < at.lon {
        return None;
    }
    if TOO_FAR < least {
        return None;
    }
    let p = place_of(from);
    let lat = reach(gap(at.lat, p.lat), least);
    if 0 < lat {
        return far_about(at, p, lat, 0, from);
    }
    let lon = reach(gap(at.lon, p.lon), least / 4 + 1);
    if 0 < lon {
        return far_about(at, p, 0, lon, from);
    }
    None
}

// A field about a point of the border in which no step changes anything, if one is found: without the distance a quadrant about the location is one.
pub(crate) fn open_field(fix: Point, asked: bool, tally: Tally, p: Point) -> Option<Field>
    ensures { Opens fix asked tally p result }
{
    if asked {
        return far_field(fix, p, tally.least);
    }
    held(field_of(fix, p), p)
}
