// Version 0: the moves and the closing pair, as they are read, and written in the shortest form.
// Stays, point 7: `strict` is how the file is read, which its header keeps, and the definitions take a Bool.
// Stays, point 5: of the place nothing is known, so a struct of `file, strict, place` would hold no fact.
ghost use mathlib.Core.List.{flat_map};
ghost use Rattle.std.specs.Prelude.{suc, ◌≡◌};
ghost use Rattle.writer.specs.Moves.{plain_move_bytes};
ghost use Rattle.border.specs.declared.reader.Version.TheVariants.{Plain};
ghost use Rattle.numbers.specs.Varint.{told, reading_of};
ghost use Rattle.salvage.specs.{inner.Moves.Laid.{Capped, Copied}, Moves.Moves.{pair_at, pairs_from, plain_moves, moves_bytes}};

use crate::moves::put::put_number;
use numbers::point::{RawPoint, signed};
use numbers::varint::{Stop, read_number};
use numbers::write::form_of;

// A move, and the place behind its two numbers.
#[derive(Clone, Copy)]
pub struct Pair {
    pub by: RawPoint,
    pub place: usize,
}

pub(crate) fn read_pair(file: &[u8], strict: bool, place: usize) -> Result<Pair, Stop>
    ensures { told result ≡ pair_at (reading_of strict file.now) place }
{
    let lat = read_number(file, place, strict)?;
    let lon = read_number(file, lat.place, strict)?;
    let by = RawPoint {
        lat: signed(lat.value),
        lon: signed(lon.value),
    };
    Ok(Pair {
        by,
        place: lon.place,
    })
}

fn put_move(out: &mut [u8], at: usize, by: RawPoint) -> usize
    ensures { Capped out.old at (plain_move_bytes by) out.new result }
{
    let next = put_number(out, at, form_of(0, by.lat));
    put_number(out, next, form_of(0, by.lon))
}

// So many pairs and one more.
fn put_pairs(
    file: &[u8],
    strict: bool,
    place: usize,
    count: u64,
    out: &mut [u8],
    at: usize,
) -> usize
    ensures { Copied (flat_map plain_move_bytes) (pairs_from (reading_of strict file.now) (suc count) place) out.old at out.new result }
{
    let mut next = at;
    let mut here = place;
    let mut left = count;
    // Stays a `loop`: there is one pair more than the count, which may be the greatest number.
    loop {
        let Ok(pair) = read_pair(file, strict, here) else {
            return next;
        };
        let by = pair.by;
        next = put_move(out, next, by);
        if left == 0 {
            return next;
        }
        here = pair.place;
        left -= 1;
    }
}

// The count, the moves and the closing pair.
pub(crate) fn put_plain(file: &[u8], strict: bool, place: usize, out: &mut [u8], at: usize) -> usize
    ensures { Copied (moves_bytes Plain) (plain_moves (reading_of strict file.now) place) out.old at out.new result }
{
    let Ok(count) = read_number(file, place, strict) else {
        return at;
    };
    let next = put_number(out, at, count.value);
    put_pairs(file, strict, count.place, count.value, out, next)
}
