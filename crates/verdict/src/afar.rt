// Boxes so far from a location that no edge in them comes nearer than the least distance so far.
ghost use mathlib.Core.{Path.{◌≡◌}, Bool.{true, ◌&&◌}};
ghost use Rattle.std.specs.Prelude.{◌≤◌};
ghost use Rattle.verdict.specs.Far.{small, is_small, raised, gap_of, gap_about, is_afar};

use crate::field::{Field, Span, is_within};
use border::place::Point;

// The points whose coordinates are less than 2^22 in size.
fn is_small(p: Point) -> bool
    ensures { result ≡ is_small p }
{
    let span = Span {
        low: -4194304,
        high: 4194304,
    };
    is_within(
        Field {
            lat: span,
            lon: span,
        },
        p,
    )
}

fn are_small(fix: Point, low: Point, high: Point) -> bool
    ensures { result ≡ is_small fix && (is_small low && is_small high) }
{
    is_small(fix) && is_small(low) && is_small(high)
}

// Counted from 2^22 below 0, so that it is a plain number.
// Stays a function: the definitions' word (raised).
fn raise(x: i32) -> u64
    requires { small x ≡ true }
    ensures { result ≡ raised x }
{
    (x + 4194304) as u64
}

fn gap_of(low: u64, x: u64, high: u64) -> u64
    ensures { result ≡ gap_of low x high }
{
    if x < low {
        return low - x - 1;
    }
    if high < x {
        return x - high - 1;
    }
    0
}

// How many numbers lie between a coordinate and those from one to another.
fn gap_about(low: i32, x: i32, high: i32) -> u64
    requires { (small low ≡ true) × (small x ≡ true) × (small high ≡ true) }
    ensures { (result ≡ gap_about low x high) × (result ≤ 8388608) }
{
    gap_of(raise(low), raise(x), raise(high))
}

// Whether the box of two corners is so far, by its latitudes and longitudes, whose squares count four times.
pub fn is_afar(fix: Point, least: u64, low: Point, high: Point) -> bool
    ensures { result ≡ is_afar fix least low high }
{
    if !are_small(fix, low, high) {
        return false;
    }
    let lat = gap_about(low.lat.0, fix.lat.0, high.lat.0);
    let lon = gap_about(low.lon.0, fix.lon.0, high.lon.0);
    least <= lat * lat + 4 * (lon * lon)
}
