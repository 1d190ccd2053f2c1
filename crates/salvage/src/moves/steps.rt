// Version 1: the moves between the points.
ghost use Rattle.std.specs.Prelude.{◌≡◌};
ghost use Rattle.writer.specs.Moves.{move_to};
ghost use Rattle.border.specs.{Encoding.{encoded_by}, declared.reader.Version.TheVariants.{Packed}};
ghost use Rattle.salvage.specs.{inner.Moves.Laid.{Copied}, Moves.Moves.{step_number, moves_bytes, closed_moves}};

use crate::moves::put::put_number;
use border::place::Point;
use border::reader::{Encoding, Version, next_point, open_border};
use numbers::write::{form_of, interleave};

// The number of the move between two points; 0 would be no move, so a zero move is 3.
pub(crate) fn step_number(from: Point, to: Point) -> u64
    ensures { result ≡ step_number (move_to from to) }
{
    let lat = form_of(from.lat.0, to.lat.0);
    let lon = form_of(from.lon.0, to.lon.0);
    if lat == 0 && lon == 0 {
        return 3;
    }
    interleave(lat, lon)
}

// The moves of a border, and its end; `data` is where references count from.
// Stays a loop: no index is counted; the next point comes from the reader, which stands behind the last.
// Stays a flag: `strict` is how the file is read, which its header keeps, and the definitions take a Bool.
// Stays parameters: they are an `Encoding` and a place; of the place nothing is known.
pub(crate) fn put_steps(
    file: &[u8],
    data: u32,
    strict: bool,
    place: usize,
    out: &mut [u8],
    at: usize,
) -> usize
    ensures { Copied (moves_bytes Packed) (closed_moves file.now (encoded_by strict Packed «data») place) out.old at out.new result }
{
    let encoding = Encoding {
        version: Version::Packed,
        data,
        strict,
    };
    let mut next = at;
    let mut reader = open_border(place);
    while let Some(later) = next_point(file, encoding, reader).unwrap_or(None) {
        if later.closed {
            let behind = put_number(out, next, 0);
            return put_number(out, behind, 0);
        }
        next = put_number(out, next, step_number(reader.point, later.point));
        reader = later;
    }
    next
}
