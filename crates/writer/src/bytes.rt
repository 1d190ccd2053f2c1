// Bytes into a lent buffer. A byte that does not fit is counted and left out: the place is held against the buffer's length once, at the end.
ghost use mathlib.Core.{Path.{◌≡◌}, List.{◌++◌}};
ghost use Rattle.std.specs.Prelude.{◌+◌, ◌^◌, ◌<◌};
ghost use Rattle.writer.specs.inner.Stored.{Stored};
ghost use Rattle.numbers.specs.Spelling.{varint_of};

use numbers::write::write_varint;

// The shortest varint, and the place behind it.
pub(crate) fn put_varint(out: &mut [u8], place: usize, value: u64) -> usize
    requires { place < 2 ^ 61 }
    ensures { Stored out.old place (varint_of value) out.new result }
{
    place + write_varint(out, place, value)
}

// Stays a function: two varints; nothing is printed.
pub(crate) fn put_two(out: &mut [u8], place: usize, first: u64, second: u64) -> usize
    requires { place < 2 ^ 60 + 20 }
    ensures { Stored out.old place (varint_of first ++ varint_of second) out.new result }
{
    let next = put_varint(out, place, first);
    put_varint(out, next, second)
}
