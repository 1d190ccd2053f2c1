// The moves of a border, by the indexes of its points, and their bytes.
ghost use mathlib.Core.{Path.{◌≡◌}, List.{◌∷◌, flat_map}};
ghost use Rattle.std.specs.Prelude.{◌+◌, ◌^◌, ◌≤◌, ◌<◌, if◌then◌else◌};
ghost use lib.{IntN.{pos, neg_ℤ, ◌-ℤ◌}, ListN.{length, get_or}, Dec.{eqb}, Seq.{slice}};
ghost use Rattle.numbers.specs.{Point.{point_of}, Spelling.{signed_form}};
ghost use Rattle.writer.specs.{Moves.{packed_number, plain_move_bytes, packed_move_bytes, moves_of, is_move, turned_back, same_move}, inner.Stored.{Stored, gap_at, move_at}};

use crate::bytes::{put_two, put_varint};
use numbers::point::decode_point;
use numbers::write::{form_of, interleave};

// The coordinate before the ith one; before the first it is 0.
fn before(list: &[i32], i: usize) -> i32
    requires { i ≤ length list.now }
    ensures { result ≡ get_or (pos 0 ∷ list.now) i (pos 0) }
{
    if i == 0 {
        return 0;
    }
    list[i - 1]
}

// The signed form of a coordinate's difference to the one before it.
fn gap_form(list: &[i32], i: usize) -> u64
    requires { i < length list.now }
    ensures { result ≡ signed_form (gap_at list.now i) }
{
    form_of(before(list, i), list[i])
}

// The same, negated when the direction is backward.
fn turned_form(list: &[i32], i: usize, direction: u32) -> u64
    requires { i < length list.now }
    ensures { result ≡ signed_form (if eqb direction 0 then gap_at list.now i else neg_ℤ (gap_at list.now i)) }
{
    if direction == 0 {
        return gap_form(list, i);
    }
    form_of(list[i], before(list, i))
}

// Whether the border's ith point differs from the one before it.
pub(crate) fn moves_at(lats: &[i32], lons: &[i32], i: usize) -> bool
    requires { (i < length lats.now) × (i < length lons.now) }
    ensures { result ≡ is_move (move_at lats.now lons.now i) }
{
    gap_form(lats, i) != 0 || gap_form(lons, i) != 0
}

// Whether a number is the border's ith move, negated when the direction is backward.
pub(crate) fn is_lent(value: u64, lats: &[i32], lons: &[i32], i: usize, direction: u32) -> bool
    requires { (i < length lats.now) × (i < length lons.now) }
    ensures { result ≡ same_move (point_of value) (if eqb direction 0 then move_at lats.now lons.now i else turned_back (move_at lats.now lons.now i)) }
{
    let by = decode_point(value);
    if form_of(0, by.lat) != turned_form(lats, i, direction) {
        return false;
    }
    form_of(0, by.lon) == turned_form(lons, i, direction)
}

// The number of the move to the border's ith point.
fn move_number(lats: &[i32], lons: &[i32], i: usize) -> u64
    requires { (i < length lats.now) × (i < length lons.now) }
    ensures { result ≡ packed_number (move_at lats.now lons.now i) }
{
    interleave(gap_form(lats, i), gap_form(lons, i))
}

// The version 1 moves to the points from index `from` up to `to`.
pub(crate) fn put_packed(
    out: &mut [u8],
    place: usize,
    lats: &[i32],
    lons: &[i32],
    from: usize,
    to: usize,
) -> usize
    requires { (to ≤ length lats.now) × (to ≤ length lons.now) × (place + length (flat_map packed_move_bytes (slice from to (moves_of lats.now lons.now))) < 2 ^ 60) }
    ensures { Stored out.old place (flat_map packed_move_bytes (slice from to (moves_of lats.now lons.now))) out.new result }
{
    let mut next = place;
    for i in from..to {
        next = put_varint(out, next, move_number(lats, lons, i));
    }
    next
}

// The version 0 moves to the points from index `from` up to `to`.
pub(crate) fn put_plain(
    out: &mut [u8],
    place: usize,
    lats: &[i32],
    lons: &[i32],
    from: usize,
    to: usize,
) -> usize
    requires { (to ≤ length lats.now) × (to ≤ length lons.now) × (place + length (flat_map plain_move_bytes (slice from to (moves_of lats.now lons.now))) < 2 ^ 60) }
    ensures { Stored out.old place (flat_map plain_move_bytes (slice from to (moves_of lats.now lons.now))) out.new result }
{
    let mut next = place;
    for i in from..to {
        next = put_two(out, next, gap_form(lats, i), gap_form(lons, i));
    }
    next
}
