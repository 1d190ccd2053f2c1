// A border, for C.
// Stays, points 5 and 6: C calls this by its name, with these parameters.
ghost use Rattle.std.specs.Prelude.{length, ◌≡◌, [], ◌∷◌};
ghost use Rattle.writer.specs.{Pieces.{pieces_of}, Writer.{border_of, fitted}};
ghost use Rattle.numbers.specs.Spoken.{spoken};
ghost use Rattle.office.specs.Written.{written_spoken};

use crate::said::say_length;
use numbers::said::speak;
use writer::write::write_border_words;

// Writes a border, with pieces of five words each. Values: its length.
pub fn uskelzar_write_border(
    version: u8,
    lats: &[i32],
    lons: &[i32],
    pieces: &[u32],
    earlier: &[u8],
    out: &mut [u8],
    reply: &mut [u64; 5],
) -> u8
    ensures { spoken result reply.new (out.new ∷ [])
        ≡ written_spoken (fitted (length out.old) (border_of version lats.now lons.now (pieces_of pieces.now) earlier.now)) }
{
    let written = write_border_words(version, lats, lons, pieces, earlier, out);
    speak(say_length(written), reply)
}
