// The border writer: document 01, "The writer".
ghost use mathlib.Core.{Path.{◌≡◌}, List.{List, [], ◌∷◌, ◌++◌, flat_map}};
ghost use Rattle.std.specs.Prelude.{Ok, Err, ◌≤◌, if◌then◌else◌};
ghost use lib.{ListN.{length, take}, Dec.{leb}};
ghost use Rattle.numbers.specs.{Reply.{plain}, Lists.{zeros}, Spelling.{varint_of}};
ghost use Rattle.writer.specs.{Moves.{plain_move_bytes, moves_of}, Pieces.{packed_from, pieces_of}, inner.Stored.{Stored, Checked}, Writer.{border_of, replied, fitted}};

use crate::bytes::{put_two, put_varint};
use crate::checks::border_fault;
use crate::limits::MOST_PIECES;
use crate::moves::{put_packed, put_plain};
use crate::pieces::{Check, check_pieces, check_words, no_pieces, put_piece};
use numbers::fault::Fault;
use numbers::refusal::Refusal;

// A run of the earlier data that stands for some of the border's moves; direction 0 is forward, others backward.
#[derive(Clone, Copy)]
pub struct Piece {
    pub start: u32,
    pub bytes: u32,
    pub direction: u32,
    pub first: u32,
    pub count: u32,
}

// Version 0: count, moves, guard bytes 02 02.
fn write_plain(out: &mut [u8], lats: &[i32], lons: &[i32]) -> usize
    requires { (length lons.now ≡ length lats.now) × (length lats.now ≤ 65535) }
    ensures { Stored out.old 0 (varint_of (length lats.now) ++ (flat_map plain_move_bytes (moves_of lats.now lons.now) ++ (2 ∷ 2 ∷ []))) out.new result }
{
    let place = put_varint(out, 0, lats.len() as u64);
    let end = put_plain(out, place, lats, lons, 0, lats.len());
    put_two(out, end, 2, 2)
}

// Version 1: moves, those of the pieces borrowed, then 00 00.
fn write_packed(
    out: &mut [u8],
    lats: &[i32],
    lons: &[i32],
    kept: [Piece; MOST_PIECES],
    count: usize,
) -> usize
    requires { (length lons.now ≡ length lats.now) × (length lats.now ≤ 65535) × (count ≤ 16) }
    ensures { Stored out.old 0 (packed_from (moves_of lats.now lons.now) 0 (take count kept)) out.new result }
{
    let mut place = 0;
    let mut next = 0;
    for j in 0..count {
        let piece = kept[j];
        let first = piece.first as usize;
        let to = first.min(lats.len());
        let here = put_packed(out, place, lats, lons, next, to);
        place = put_piece(out, here, piece);
        next = first + piece.count as usize;
    }
    let end = put_packed(out, place, lats, lons, next, lats.len());
    put_two(out, end, 0, 0)
}

// What was stored is the reply if it fits.
fn finish(out: &mut [u8], end: usize) -> Result<usize, Refusal>
    ensures { replied result out.new ≡ (if leb end (length out.old) then replied (Ok end) out.old else replied (Err (plain 24)) (zeros (length out.old))) }
{
    if out.len() < end {
        out.fill(0);
        return Err(Fault::OutputFull.alone());
    }
    Ok(end)
}

// The whole writer, over a checked list of pieces.
fn write_checked(
    version: u8,
    lats: &[i32],
    lons: &[i32],
    check: Check,
    earlier: &[u8],
    out: &mut [u8],
) -> Result<usize, Refusal>
    ensures { (ps : List Piece) → Checked earlier.now (moves_of lats.now lons.now) ps check → replied result out.new ≡ fitted (length out.old) (border_of version lats.now lons.now ps earlier.now) }
{
    out.fill(0);
    border_fault(version, lats, lons, earlier)?;
    let seen = check.seen;
    if version == 0 {
        if seen != 0 {
            return Err(Fault::BadPieces.alone());
        }
        let end = write_plain(out, lats, lons);
        return finish(out, end);
    }
    if MOST_PIECES < seen {
        return Err(Fault::BadPieces.at(MOST_PIECES));
    }
    if check.good != seen {
        return Err(Fault::BadPieces.at(check.good));
    }
    let kept = check.kept;
    let end = write_packed(out, lats, lons, kept, seen);
    finish(out, end)
}

// The border of the two lists, with some of its moves borrowed from the earlier data by the pieces.
// Stays apart from `write_border_words`: thin, and the check is of another list.
// Stays, points 5 and 6: docs/ have it with two lists, which may differ in length.
pub fn write_border(
    version: u8,
    lats: &[i32],
    lons: &[i32],
    pieces: &[Piece],
    earlier: &[u8],
    out: &mut [u8],
) -> Result<usize, Refusal>
    ensures { replied result out.new ≡ fitted (length out.old) (border_of version lats.now lons.now pieces.now earlier.now) }
{
    let check = check_pieces(earlier, lats, lons, pieces, no_pieces());
    write_checked(version, lats, lons, check, earlier, out)
}

// The same of pieces as words, five each: start, bytes, direction, first, count. A remainder of words is no piece.
// Stays apart from `write_border`: thin, and C's pieces are words.
// Stays, points 5 and 6: docs/ have it with two lists, which may differ in length.
pub fn write_border_words(
    version: u8,
    lats: &[i32],
    lons: &[i32],
    words: &[u32],
    earlier: &[u8],
    out: &mut [u8],
) -> Result<usize, Refusal>
    ensures { replied result out.new ≡ fitted (length out.old) (border_of version lats.now lons.now (pieces_of words.now) earlier.now) }
{
    let check = check_words(earlier, lats, lons, words, no_pieces());
    write_checked(version, lats, lons, check, earlier, out)
}
