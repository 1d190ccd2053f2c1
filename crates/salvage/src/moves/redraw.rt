// A border, written again from its moves.
ghost use Rattle.salvage.specs.{inner.Moves.Laid.{Copied}, Moves.Moves.{closed_moves, moves_bytes}};

use crate::moves::pairs::put_plain;
use crate::moves::steps::put_steps;
use border::reader::{Encoding, Version};

// The border at a place of the file, without borrowed runs, and the place behind it. Of one that does not close nothing is said.
pub(crate) fn put_border(
    file: &[u8],
    encoding: Encoding,
    place: usize,
    out: &mut [u8],
    at: usize,
) -> usize
    ensures { Copied (moves_bytes encoding.version) (closed_moves file.now encoding place) out.old at out.new result }
{
    let version = encoding.version;
    match version {
        Version::Plain => put_plain(file, encoding.strict, place, out, at),
        Version::Packed => put_steps(file, encoding.data, encoding.strict, place, out, at),
    }
}
