// The squared distance of a location from an edge. The longitude counts twice: it has half the scale.
ghost use mathlib.Core.{Path.{◌≡◌}, Bool.{true}};
ghost use Rattle.std.specs.Prelude.{◌+◌, ◌*◌, ◌%◌, ◌^◌, ◌<◌};
ghost use lib.{Dec.{ltb}, IntN.{◌-ℤ◌, ◌*ℤ◌, nat_abs}, Signed.{mag}};
ghost use Rattle.numbers.specs.Float.{cut64, ◌⊟◌};
ghost use Rattle.verdict.specs.{Edge.{spot_of}, Distance.{to_segment, to_vertex, distance_of, measured}, Step.{told}};

use crate::edge::{Seen, Spot, closest, edge_between, holds_cut};
use crate::step::{Halt, Tally};
use border::place::Point;
use numbers::float::cut::to_i64;

// Whether a square fits an i64.
// Stays apart: those of equal shape elsewhere have other bounds.
fn squarable(difference: i64) -> bool
    ensures { result ≡ ltb (mag (difference *ℤ difference)) (2 ^ 63) }
{
    -3037000499 <= difference && difference <= 3037000499
}

// Stays a function: a product, no conversion.
fn square(difference: i64) -> u64
    requires { mag (difference *ℤ difference) < 2 ^ 63 }
    ensures { result ≡ nat_abs (difference *ℤ difference) }
{
    (difference * difference) as u64
}

// Modulo 2^64.
fn sum_of_squares(lat: i64, lon: i64) -> u64
    requires { (mag (lat *ℤ lat) < 2 ^ 63) × (mag (lon *ℤ lon) < 2 ^ 63) }
    ensures { result ≡ (nat_abs (lat *ℤ lat) + 4 * nat_abs (lon *ℤ lon)) % 2 ^ 64 }
{
    square(lat).wrapping_add(square(lon) % 0x4000_0000_0000_0000 * 4)
}

// The difference of two floats, cut to an i64.
fn apart(one: f32, other: f32) -> i64
    ensures { result ≡ cut64 (one ⊟ other) }
{
    to_i64(one - other)
}

fn to_segment(near: Spot, at: Spot) -> Result<u64, Halt>
    ensures { told result ≡ to_segment near at }
{
    let lat = apart(near.lat, at.lat);
    if !squarable(lat) {
        return Err(Halt::Over);
    }
    let lon = apart(near.lon, at.lon);
    if !squarable(lon) {
        return Err(Halt::Over);
    }
    Ok(sum_of_squares(lat, lon))
}

pub fn to_vertex(to: Point, fix: Point) -> Result<u64, Halt>
    ensures { told result ≡ to_vertex to fix }
{
    let lat = to.lat.0.checked_sub(fix.lat.0).ok_or(Halt::Over)?;
    let lon = to.lon.0.checked_sub(fix.lon.0).ok_or(Halt::Over)?;
    Ok(sum_of_squares(lat as i64, lon as i64))
}

// To the closest point, if that is in the edge's box. Else to the vertex: the border is closed, so one of the two is enough.
fn distance_of(fix: Point, at: Spot, from: Seen, to: Seen) -> Result<u64, Halt>
    requires { (at ≡ spot_of fix) × («from».spot ≡ spot_of «from».point) × (to.spot ≡ spot_of to.point) }
    ensures { told result ≡ distance_of fix «from».point to.point }
{
    let start = from.point;
    let end = to.point;
    let edge = edge_between(start, from.spot, end, to.spot);
    let near = closest(edge, at);
    if holds_cut(end, near, start) {
        to_segment(near, at)
    } else {
        to_vertex(end, fix)
    }
}

// The least distance after an edge.
pub(crate) fn measure(
    fix: Point,
    at: Spot,
    from: Seen,
    to: Seen,
    tally: Tally,
) -> Result<Tally, Halt>
    requires { (at ≡ spot_of fix) × («from».spot ≡ spot_of «from».point) × (to.spot ≡ spot_of to.point) }
    ensures { told result ≡ measured true fix «from».point to.point tally }
{
    let new = distance_of(fix, at, from, to)?;
    Ok(Tally {
        winding: tally.winding,
        least: new.min(tally.least),
    })
}
