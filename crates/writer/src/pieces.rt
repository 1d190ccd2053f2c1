// The check of a list of pieces, and a piece's bytes.
ghost use mathlib.Core.{Path.{◌≡◌}, List.{List, [], ◌∷◌, ◌++◌}};
ghost use Rattle.std.specs.Prelude.{ℕ, ◌+◌, ◌-◌, ◌*◌, ◌/◌, ◌^◌, ◌≤◌, ◌<◌, if◌then◌else◌};
ghost use lib.{IntN.{ℤ}, ListN.{length}, Dec.{eqb}};
ghost use Rattle.writer.specs.{Moves.{moves_of}, Pieces.{lent_moves, spells, clear_before, accepted, piece_bytes, piece_at, pieces_of}, inner.Stored.{Stored, Checked}};

use crate::bytes::put_two;
use crate::limits::MOST_PIECES;
use crate::moves::is_lent;
use crate::write::Piece;
use numbers::varint::read_forward;

// Stands for any number of pieces over the most.
const TOO_MANY: usize = MOST_PIECES + 1;

// What the check knows of a list: how many pieces there are (`TOO_MANY` for more than the most), how many are good before the first bad one,
// the first move behind them, and the pieces themselves.
#[derive(Clone, Copy)]
pub struct Check {
    pub seen: usize,
    pub good: usize,
    pub free: usize,
    pub kept: [Piece; MOST_PIECES],
}

// The index of the border's move that the run's jth number stands for.
fn index_of(piece: Piece, j: u32) -> usize
    requires { j < piece.count }
    ensures { result ≡ (if eqb piece.direction 0 then piece.first + j else piece.first + (piece.count - 1 - j)) }
{
    if piece.direction == 0 {
        return piece.first as usize + j as usize;
    }
    piece.first as usize + (piece.count - 1 - j) as usize
}

// The run is whole numbers, none 0, of just the border's moves.
fn run_spells(run: &[u8], lats: &[i32], lons: &[i32], piece: Piece) -> bool
    requires { (piece.first + piece.count ≤ length lats.now) × (piece.first + piece.count ≤ length lons.now) }
    ensures { result ≡ spells run.now 0 (lent_moves (moves_of lats.now lons.now) piece) }
{
    let mut place = 0;
    for j in 0..piece.count {
        let Ok(number) = read_forward(run, place) else {
            return false;
        };
        if run.len() < number.place {
            return false;
        }
        if number.value == 0 {
            return false;
        }
        let index = index_of(piece, j);
        if !is_lent(number.value, lats, lons, index, piece.direction) {
            return false;
        }
        place = number.place;
    }
    place == run.len()
}

// The byte just before a place, with the high bit clear.
fn clear_before(earlier: &[u8], place: usize) -> bool
    requires { place ≤ length earlier.now }
    ensures { result ≡ clear_before earlier.now place }
{
    0 < place && earlier[place - 1] < 128
}

// One piece, by value; moves below `free` are taken.
fn is_accepted(earlier: &[u8], lats: &[i32], lons: &[i32], free: usize, piece: Piece) -> bool
    ensures { result ≡ accepted earlier.now (moves_of lats.now lons.now) free piece }
{
    let first = piece.first as usize;
    let last = first + piece.count as usize;
    let start = piece.start as usize;
    let end = start + piece.bytes as usize;
    if first < free {
        return false;
    }
    if last == first {
        return false;
    }
    if lats.len() < last {
        return false;
    }
    if lons.len() < last {
        return false;
    }
    if earlier.len() < end {
        return false;
    }
    if piece.direction == 0 {
        return run_spells(&earlier[start..end], lats, lons, piece);
    }
    if !clear_before(earlier, start) {
        return false;
    }
    run_spells(&earlier[start..end], lats, lons, piece)
}

// One piece more of a list.
fn check_next(earlier: &[u8], lats: &[i32], lons: &[i32], check: Check, piece: Piece) -> Check
    ensures { (ps : List Piece) → Checked earlier.now (moves_of lats.now lons.now) ps check → Checked earlier.now (moves_of lats.now lons.now) (ps ++ (piece ∷ [])) result }
{
    let seen = check.seen;
    let mut next = check;
    if MOST_PIECES <= seen {
        next.seen = TOO_MANY;
        return next;
    }
    next.seen = seen + 1;
    next.free = piece.first as usize + piece.count as usize;
    next.kept[seen] = piece;
    if check.good != seen {
        return next;
    }
    if !is_accepted(earlier, lats, lons, check.free, piece) {
        return next;
    }
    next.good = seen + 1;
    next
}

// Before the first piece.
pub(crate) fn no_pieces() -> Check
    ensures { (earlier : List ℕ) (lats lons : List ℤ) → Checked earlier (moves_of lats lons) [] result }
{
    Check {
        seen: 0,
        good: 0,
        free: 0,
        kept: [Piece {
            start: 0,
            bytes: 0,
            direction: 0,
            first: 0,
            count: 0,
        }; MOST_PIECES],
    }
}

// A lent list of records: each in turn goes to the by-value check.
pub(crate) fn check_pieces(
    earlier: &[u8],
    lats: &[i32],
    lons: &[i32],
    pieces: &[Piece],
    check: Check,
) -> Check
    ensures { Checked earlier.now (moves_of lats.now lons.now) [] check → Checked earlier.now (moves_of lats.now lons.now) pieces.now result }
{
    let mut sofar = check;
    for piece in pieces {
        sofar = check_next(earlier, lats, lons, sofar, *piece);
    }
    sofar
}

fn piece_at(words: &[u32], i: usize) -> Piece
    requires { i < length words.now / 5 }
    ensures { result ≡ piece_at words.now i }
{
    let at = 5 * i;
    Piece {
        start: words[at],
        bytes: words[at + 1],
        direction: words[at + 2],
        first: words[at + 3],
        count: words[at + 4],
    }
}

// The same of pieces as words, five each.
pub(crate) fn check_words(
    earlier: &[u8],
    lats: &[i32],
    lons: &[i32],
    words: &[u32],
    check: Check,
) -> Check
    ensures { Checked earlier.now (moves_of lats.now lons.now) [] check → Checked earlier.now (moves_of lats.now lons.now) (pieces_of words.now) result }
{
    let mut sofar = check;
    for i in 0..words.len() / 5 {
        sofar = check_next(earlier, lats, lons, sofar, piece_at(words, i));
    }
    sofar
}

// 00 01, run start, signed length; backward, run end and the length negated.
// Stays a clause: a place's bound, which a type of its own would not make plainer.
pub(crate) fn put_piece(out: &mut [u8], place: usize, piece: Piece) -> usize
    requires { place < 2 ^ 60 }
    ensures { Stored out.old place (piece_bytes piece) out.new result }
{
    let start = piece.start as u64;
    let size = piece.bytes as u64;
    let next = put_two(out, place, 0, 1);
    if piece.direction == 0 {
        return put_two(out, next, start, 2 * size);
    }
    put_two(out, next, start + size, 2 * size + 1)
}
