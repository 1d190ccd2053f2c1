// Edges of a border in f32, each operation rounded once, in the order of the Rust; boxes; quadrants.
// Stays, point 7: `asked` is the caller's question; a const parameter would compile each loop twice (docs/DECISIONS.md: 8 kB).
// Stays, point 4: operators under the definitions' words (`same_point`, `between`, `slope_of`).
ghost use Rattle.std.specs.Prelude.{int_le};
ghost use mathlib.Core.{Path.{◌≡◌}, Bool.{◌&&◌}};
ghost use Rattle.verdict.specs.{Edge.{same_point, between, in_box, quadrant_of, spot_of, slope_of, edge_of, closest_on, cut_of, straight}, inner.Kept.{seen_from}};

use border::place::{FixedLat, FixedLon, Point};
use numbers::float::cut::to_i32;
use numbers::float::nearest::of_i32;

// A point of the grid in f32.
#[derive(Clone, Copy)]
pub struct Spot {
    pub lat: f32,
    pub lon: f32,
}

// latitude = a * longitude + b
#[derive(Clone, Copy)]
pub struct Slope {
    pub a: f32,
    pub b: f32,
}

// An edge is sloped, with its line, or all of it has one longitude or one latitude.
#[derive(Clone, Copy)]
pub enum Edge {
    Sloped(Slope),
    EqualLongitude(FixedLon),
    EqualLatitude(FixedLat),
}

// A point with what is kept of it for the next edge: its quadrant, and its floats if the distance is asked for.
// Stays a number: turns are counted in quadrants modulo 4.
#[derive(Clone, Copy)]
pub struct Seen {
    pub point: Point,
    pub quadrant: u8,
    pub spot: Spot,
}

pub fn same_point(one: Point, other: Point) -> bool
    ensures { result ≡ same_point one other }
{
    one == other
}

fn rising(one: i32, x: i32, other: i32) -> bool
    ensures { result ≡ int_le one x && int_le x other }
{
    one <= x && x <= other
}

// Whether x is one of two numbers or between them, whichever is the less.
fn between_numbers(one: i32, x: i32, other: i32) -> bool
    ensures { result ≡ between one x other }
{
    rising(one, x, other) || rising(other, x, one)
}

// Stays two: each type's keeps a latitude from a longitude's place, and a generic one over `Ord` would say its clause by `cmp`.
fn lat_between(one: FixedLat, x: FixedLat, other: FixedLat) -> bool
    ensures { result ≡ between one.0 x.0 other.0 }
{
    between_numbers(one.0, x.0, other.0)
}

// Stays apart from `lat_between`, as said there.
fn lon_between(one: FixedLon, x: FixedLon, other: FixedLon) -> bool
    ensures { result ≡ between one.0 x.0 other.0 }
{
    between_numbers(one.0, x.0, other.0)
}

// Whether the box with two opposite corners holds a point.
pub fn in_box(one: Point, point: Point, other: Point) -> bool
    ensures { result ≡ in_box one point other }
{
    lat_between(one.lat, point.lat, other.lat) && lon_between(one.lon, point.lon, other.lon)
}

// The quadrant about `fix` that a point lies in: 0 north-east, 1 north-west, 2 south-west, 3 south-east.
pub(crate) fn quadrant_of(fix: Point, point: Point) -> u8
    ensures { result ≡ quadrant_of fix point }
{
    if fix.lat.0 <= point.lat.0 {
        if fix.lon.0 <= point.lon.0 { 0 } else { 1 }
    } else {
        if fix.lon.0 <= point.lon.0 { 3 } else { 2 }
    }
}

// Stays apart from `place_of` (far.rt): it gives floats, that one lifted numbers.
pub(crate) fn spot_of(point: Point) -> Spot
    ensures { result ≡ spot_of point }
{
    Spot {
        lat: of_i32(point.lat.0),
        lon: of_i32(point.lon.0),
    }
}

pub(crate) fn seen_from(fix: Point, at: Spot, asked: bool, point: Point) -> Seen
    requires { at ≡ spot_of fix }
    ensures { result ≡ seen_from fix asked point }
{
    let quadrant = quadrant_of(fix, point);
    Seen {
        point,
        quadrant,
        spot: if asked { spot_of(point) } else { at },
    }
}

pub(crate) fn is_straight(from: Point, to: Point) -> bool
    ensures { result ≡ straight «from» to }
{
    to.lon.0 == from.lon.0 || to.lat.0 == from.lat.0
}

// The line from one location to another.
fn slope_between(from: Spot, to: Spot) -> Slope
    ensures { result ≡ slope_of from to }
{
    let a = (to.lat - from.lat) / (to.lon - from.lon);
    Slope {
        a,
        b: to.lat - a * to.lon,
    }
}

// The edge between two points, of which `left` and `reached` are the floats. Equal points are an edge of equal longitude.
pub(crate) fn edge_between(from: Point, left: Spot, to: Point, reached: Spot) -> Edge
    requires { (left ≡ spot_of from) × (reached ≡ spot_of to) }
    ensures { result ≡ edge_of from to }
{
    let lon = to.lon;
    if lon.0 == from.lon.0 {
        return Edge::EqualLongitude(lon);
    }
    let lat = to.lat;
    if lat.0 == from.lat.0 {
        return Edge::EqualLatitude(lat);
    }
    Edge::Sloped(slope_between(left, reached))
}

// The foot of the perpendicular from a location to a line.
fn foot(line: Slope, at: Spot) -> Spot
    ensures { result ≡ closest_on (Edge.Sloped line) at }
{
    let a = line.a;
    let b = line.b;
    let lat = at.lat;
    let lon = at.lon;
    Spot {
        lat: (a * (lon + a * lat) + b) / (a * a + 1.0),
        lon: (lon + a * lat - a * b) / (a * a + 1.0),
    }
}

// The point of an edge's line that is closest to a location.
pub(crate) fn closest(edge: Edge, at: Spot) -> Spot
    ensures { result ≡ closest_on edge at }
{
    match edge {
        Edge::Sloped(line) => foot(line, at),
        Edge::EqualLongitude(lon) => Spot {
            lat: at.lat,
            lon: of_i32(lon.0),
        },
        Edge::EqualLatitude(lat) => Spot {
            lat: of_i32(lat.0),
            lon: at.lon,
        },
    }
}

// Whether the box with two opposite corners holds a location that is cut to a point. The longitude is cut only if the latitude is held.
pub(crate) fn holds_cut(one: Point, at: Spot, other: Point) -> bool
    ensures { result ≡ in_box one (cut_of at) other }
{
    lat_between(one.lat, FixedLat(to_i32(at.lat)), other.lat)
        && lon_between(one.lon, FixedLon(to_i32(at.lon)), other.lon)
}
