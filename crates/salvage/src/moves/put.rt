// Numbers into the output. What does not fit is counted and left out; counting stops at 2^31, since repeated runs can make a border longer than
// any number.
ghost use Rattle.std.specs.Prelude.{◌≡◌};
ghost use Rattle.numbers.specs.Spelling.{varint_of};
ghost use Rattle.salvage.specs.inner.Moves.Laid.{Capped};

use numbers::write::write_varint;

// The shortest varint, and the place behind it.
// Stays by hand: it writes a number of the format, and prints none.
pub(crate) fn put_number(out: &mut [u8], place: usize, value: u64) -> usize
    ensures { Capped out.old place (varint_of value) out.new result }
{
    if place < 0x8000_0000 {
        return place + write_varint(out, place, value);
    }
    place
}
