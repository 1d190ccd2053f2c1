// A whole border: how it ends.
ghost use Rattle.std.specs.Prelude.{◌≡◌};
ghost use Rattle.border.specs.Trace.{trace_of, border_at};
ghost use Rattle.numbers.specs.Varint.{told};
ghost use Rattle.salvage.specs.Moves.Moves.{end_of};

use border::reader::{Encoding, next_point, open_border};
use numbers::varint::Stop;

// How the border at a place ends: it is read to its end, whatever its points.
pub(crate) fn border_end(file: &[u8], encoding: Encoding, place: usize) -> Result<(), Stop>
    ensures { told result ≡ end_of (trace_of file.now encoding (border_at place)) }
{
    let mut reader = open_border(place);
    // Stays a `loop`: a `while let` on `?` is no plainer.
    loop {
        let Some(later) = next_point(file, encoding, reader)? else {
            return Ok(());
        };
        reader = later;
    }
}
