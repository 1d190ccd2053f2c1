// The tiles of the fixed grid: 32 by latitude, 64 by longitude, the outermost taking everything beyond.
// Stays, point 1: the 0 of `more_than` is the definitions' difference of two numbers, and no sign.
ghost use Rattle.std.specs.Prelude.{◌≡◌, ◌+◌, ◌-◌, ◌^◌, ◌<◌, ◌≤◌};
ghost use Rattle.index.specs.Tiles.{lift, begins_at, span_of, tile_along, tile_of, tile_at, meets, is_met};

use border::place::Point;
use std::num::wrapping_add_u32;

// A tile along an axis: where it begins and where it ends, counted from the lowest coordinate up.
#[derive(Clone, Copy)]
pub struct Span {
    pub from: u64,
    pub end: u64,
}

#[derive(Clone, Copy)]
pub struct Tile {
    pub rows: Span,
    pub columns: Span,
}

fn power_of_two(k: u64) -> u64
    requires { k < 64 }
    ensures { result ≡ 2 ^ k }
{
    1 << k
}

// How much more, or 0.
fn more_than(a: u64, b: u64) -> u64
    ensures { result ≡ a - b }
{
    if a < b {
        return 0;
    }
    a - b
}

// A side of a tile, at least one unit.
// Stays apart: one line; what has the same form elsewhere reads a coordinate.
fn side_of(power: u64, precision: u64) -> u64
    requires { precision ≤ 32 }
    ensures { result ≡ 2 ^ (precision - power) }
{
    power_of_two(more_than(precision, power))
}

fn begins_at(power: u64, precision: u64, i: u64) -> u64
    requires { (1 ≤ precision) × (precision ≤ 32) × (i ≤ 64) }
    ensures { result ≡ begins_at power precision i }
{
    let half = power_of_two(precision - 1);
    let side = side_of(power, precision);
    0x8000_0000 - half + i * side
}

fn from_of(power: u64, precision: u64, i: u64) -> u64
    requires { (1 ≤ precision) × (precision ≤ 32) × (i ≤ 63) }
    ensures { result ≡ (span_of power precision i).from }
{
    if i == 0 {
        return 0;
    }
    begins_at(power, precision, i)
}

fn end_of(power: u64, precision: u64, i: u64) -> u64
    requires { (1 ≤ precision) × (precision ≤ 32) × (i ≤ 63) × (power ≤ 6) }
    ensures { result ≡ (span_of power precision i).end }
{
    if i + 1 == power_of_two(power) {
        return 0x1_0000_0000;
    }
    begins_at(power, precision, i + 1)
}

fn span_of(power: u64, precision: u64, i: u64) -> Span
    requires { (1 ≤ precision) × (precision ≤ 32) × (i ≤ 63) × (power ≤ 6) }
    ensures { result ≡ span_of power precision i }
{
    let from = from_of(power, precision, i);
    let end = end_of(power, precision, i);
    Span { from, end }
}

pub(crate) fn tile_at(precision: u8, t: u64) -> Tile
    requires { (1 ≤ precision) × (precision ≤ 32) × (t < 2048) }
    ensures { result ≡ tile_at precision t }
{
    let rows = span_of(5, precision as u64, t / 64);
    let columns = span_of(6, precision as u64, t % 64);
    Tile { rows, columns }
}

// A coordinate's word, counted from the lowest coordinate up.
// Stays by hand: it is a word of the definitions, and no `From`: a coordinate is moved too.
pub fn lift(word: u32) -> u64
    ensures { result ≡ lift word }
{
    wrapping_add_u32(word, 0x8000_0000) as u64
}

// The tile along an axis of a coordinate counted from the lowest up.
fn tile_along(power: u64, precision: u64, x: u64) -> u64
    requires { (1 ≤ precision) × (precision ≤ 32) × (power ≤ 6) }
    ensures { result ≡ tile_along power precision x }
{
    let grid = 0x8000_0000 - power_of_two(precision - 1);
    if x < grid {
        return 0;
    }
    let last = power_of_two(power) - 1;
    let tile = (x - grid) >> more_than(precision, power);
    if last < tile {
        return last;
    }
    tile
}

// The tile of a fix.
pub(crate) fn tile_of(precision: u8, fix: Point) -> usize
    requires { (1 ≤ precision) × (precision ≤ 32) }
    ensures { (result ≡ tile_of precision fix) × (result < 2048) }
{
    let lat = fix.lat;
    let lon = fix.lon;
    let row = tile_along(5, precision as u64, lift(lat.0.cast_unsigned()));
    let column = tile_along(6, precision as u64, lift(lon.0.cast_unsigned()));
    (64 * row + column) as usize
}

fn is_met(span: Span, low: u64, high: u64) -> bool
    ensures { result ≡ is_met span low high }
{
    low <= high && (low < span.end && span.from <= high)
}

// Whether a box meets a tile, by its words.
pub fn meets(tile: Tile, south: u32, west: u32, north: u32, east: u32) -> bool
    ensures { result ≡ meets tile south west north east }
{
    if is_met(tile.rows, lift(south), lift(north)) {
        return is_met(tile.columns, lift(west), lift(east));
    }
    false
}
