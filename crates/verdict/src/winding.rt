// How often a border winds about a location, in quarter turns.
ghost use Rattle.std.specs.Prelude.{◌≡◌};
ghost use Rattle.verdict.specs.{Edge.{quadrant_of, spot_of}, Step.{told}, Winding.{turned, quarter_by, half_turn, turn_at, crossing_of, across_by, clear_of, wound_by}};

use crate::edge::{Edge, Seen, Slope, Spot, edge_between, in_box, is_straight, spot_of};
use crate::step::{Halt, Tally, Verdict};
use border::place::{FixedLon, Point};
use numbers::float::cut::to_i32;

fn turn(tally: Tally, by: i32) -> Result<Tally, Halt>
    ensures { told result ≡ turned by tally }
{
    let winding = tally.winding.checked_add(by).ok_or(Halt::Over)?;
    Ok(Tally {
        winding,
        least: tally.least,
    })
}

// One quadrant on, or one back.
pub(crate) fn quarter(quarters: u8, tally: Tally) -> Result<Tally, Halt>
    ensures { told result ≡ quarter_by quarters tally }
{
    if quarters == 1 {
        return turn(tally, 1);
    }
    if quarters == 3 {
        return turn(tally, -1);
    }
    Ok(tally)
}

// Two quadrants, by the west or by the east.
// Stays a flag: the side, a Bool of the definitions, and two calls.
fn half_turn(west: bool, quadrant: u8) -> i32
    ensures { result ≡ half_turn west quadrant }
{
    if quadrant < 2 {
        if west { -2 } else { 2 }
    } else {
        if west { 2 } else { -2 }
    }
}

// The turn where an edge crosses two quadrants. A crossing within one of the location is on the border. The right bound is worked out only if the left one holds.
fn turn_at(crossing: FixedLon, fix: FixedLon, quadrant: u8) -> Result<i32, Halt>
    ensures { told result ≡ turn_at crossing fix quadrant }
{
    let left = fix.0.checked_sub(1).ok_or(Halt::Over)?;
    if crossing.0 < left {
        return Ok(half_turn(true, quadrant));
    }
    let right = fix.0.checked_add(1).ok_or(Halt::Over)?;
    if right < crossing.0 {
        return Ok(half_turn(false, quadrant));
    }
    Err(Halt::Meets(Verdict::OnBorderSegment))
}

// The longitude at which a line has the location's latitude.
fn crossing_of(fix: Point, at: Spot, line: Slope) -> FixedLon
    requires { at ≡ spot_of fix }
    ensures { result ≡ crossing_of fix line }
{
    FixedLon(to_i32((at.lat - line.b) / line.a))
}

// An edge that leads across two quadrants; a straight one has the location on it.
// Stays a match: an edge is one of three kinds, and none of them is a refusal.
fn cross(fix: Point, at: Spot, edge: Edge, quadrant: u8, tally: Tally) -> Result<Tally, Halt>
    requires { at ≡ spot_of fix }
    ensures { told result ≡ across_by fix edge quadrant tally }
{
    let Edge::Sloped(line) = edge else {
        return Err(Halt::Meets(Verdict::OnBorderSegment));
    };
    let by = turn_at(crossing_of(fix, at, line), fix.lon, quadrant)?;
    turn(tally, by)
}

// A straight edge whose box holds the location has the location on it.
fn keep_clear(fix: Point, from: Point, to: Point, tally: Tally) -> Result<Tally, Halt>
    ensures { told result ≡ clear_of fix «from» to tally }
{
    if is_straight(from, to) && in_box(to, fix, from) {
        return Err(Halt::Meets(Verdict::OnBorderSegment));
    }
    Ok(tally)
}

// The winding after the edge between two points. Most edges stay in one quadrant.
pub(crate) fn wound(fix: Point, at: Spot, from: Seen, to: Seen, tally: Tally) -> Result<Tally, Halt>
    requires { (at ≡ spot_of fix) × («from».quadrant ≡ quadrant_of fix «from».point) × (to.quadrant ≡ quadrant_of fix to.point) }
    ensures { told result ≡ wound_by fix «from».point to.point tally }
{
    let start = from.point;
    let end = to.point;
    if to.quadrant == from.quadrant {
        return keep_clear(fix, start, end, tally);
    }
    let quarters = (to.quadrant + 4 - from.quadrant) % 4;
    if quarters == 2 {
        let edge = edge_between(start, spot_of(start), end, spot_of(end));
        return cross(fix, at, edge, to.quadrant, tally);
    }
    let counted = quarter(quarters, tally)?;
    keep_clear(fix, start, end, counted)
}
