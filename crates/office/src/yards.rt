// A whole file from yards, for C.
// Stays, points 5 and 6: C calls this by its name, with these parameters.
ghost use Rattle.std.specs.Prelude.{length, ◌≡◌, [], ◌∷◌};
ghost use Rattle.build.specs.{Checked.{lent_as}, Room.{work_of}, Whole.{Cleared}};
ghost use Rattle.numbers.specs.Spoken.{spoken};
ghost use Rattle.office.specs.Built.{built_for, built_spoken};

use crate::said::say_length;
use build::asked::Asked;
use build::file::build;
use numbers::said::speak;

// Builds a file. Values: its length. The lists behind the texts are for working in, and zero afterwards.
pub fn uskelzar_build(
    kind: u8,
    version: u8,
    precision: u8,
    names: u32,
    yards: &[u32],
    lats: &[i32],
    lons: &[i32],
    pieces: &[u32],
    lengths: &[u32],
    texts: &[u8],
    starts: &mut [u32],
    keys: &mut [u64],
    spare: &mut [u64],
    kept: &mut [u32],
    held: &mut [u8],
    words: &mut [u32],
    places: &mut [u32],
    boxes: &mut [i32],
    bytes: &mut [u8],
    out: &mut [u8],
    reply: &mut [u64; 5],
) -> u8
    ensures { (spoken result reply.new (out.new ∷ []) ≡ built_spoken (built_for (lent_as kind version precision names yards.now lats.now lons.now pieces.now lengths.now texts.now)
        (work_of (length starts.old) (length keys.old) (length spare.old) (length kept.old) (length held.old) (length words.old) (length places.old) (length boxes.old))
        (length out.old) (length bytes.old)))
        × Cleared (work_of (length starts.old) (length keys.old) (length spare.old) (length kept.old) (length held.old) (length words.old) (length places.old) (length boxes.old))
        (length bytes.old) starts.new keys.new spare.new kept.new held.new words.new places.new boxes.new bytes.new }
{
    let asked = Asked {
        kind,
        version,
        precision,
        names,
    };
    let built = build(
        asked, yards, lats, lons, pieces, lengths, texts, starts, keys, spare, kept, held, words,
        places, boxes, bytes, out,
    );
    speak(say_length(built), reply)
}
