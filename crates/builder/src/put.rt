// Bytes into the output, one after another. What does not fit is counted and left out: the end is held against the room once, at the end,
// and a section is measured by writing it into no room at all.
ghost use mathlib.Core.{Path.{◌≡◌}, List.{[], ◌∷◌, map}};
ghost use Rattle.std.specs.Prelude.{◌+◌, ◌^◌, ◌<◌, length};
ghost use Rattle.writer.specs.inner.Stored.{Stored};
ghost use Rattle.numbers.specs.Spelling.{varint_of};
ghost use Rattle.header.specs.Utf8.{unmasked};
ghost use Rattle.builder.specs.Metadata.{inlined};

use numbers::write::write_varint;

// The shortest varint, and the place behind it.
pub fn put_varint(out: &mut [u8], place: usize, value: u64) -> usize
    requires { place < 2 ^ 62 }
    ensures { Stored out.old place (varint_of value) out.new result }
{
    place + write_varint(out, place, value)
}

fn put_byte(out: &mut [u8], place: usize, byte: u8) -> usize
    requires { place < 2 ^ 63 }
    ensures { Stored out.old place (byte ∷ []) out.new result }
{
    if place < out.len() {
        out[place] = byte;
        return place + 1;
    }
    place + 1
}

// Bytes as they are.
pub fn put_bytes(out: &mut [u8], place: usize, bytes: &[u8]) -> usize
    requires { place + length bytes.now < 2 ^ 62 }
    ensures { Stored out.old place bytes.now out.new result }
{
    let mut next = place;
    for byte in bytes {
        next = put_byte(out, next, *byte);
    }
    next
}

// Bytes, each XOR 0x80.
pub(crate) fn put_masked(out: &mut [u8], place: usize, bytes: &[u8]) -> usize
    requires { place + length bytes.now < 2 ^ 62 }
    ensures { Stored out.old place (map unmasked bytes.now) out.new result }
{
    let mut next = place;
    for byte in bytes {
        next = put_byte(out, next, *byte ^ 0x80);
    }
    next
}

// A text inline: its length, and its bytes XOR 0x80.
// Stays apart: it writes a text; `same_text` compares two and is no twin.
pub fn put_text(out: &mut [u8], place: usize, text: &[u8]) -> usize
    requires { place + length text.now < 2 ^ 61 }
    ensures { Stored out.old place (inlined text.now) out.new result }
{
    let next = put_varint(out, place, text.len() as u64);
    put_masked(out, next, text)
}
