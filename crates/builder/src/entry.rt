// An entry of the table: its box and the steps from the entry before it.
// Stays, point 5: a type for a place below 2^60 would be made and taken apart at each sum.
ghost use Rattle.std.specs.Prelude.{◌≡◌, ◌^◌, ◌<◌, pos, ◌-ℤ◌};
ghost use Rattle.writer.specs.inner.Stored.{Stored};
ghost use Rattle.numbers.specs.Spelling.{varint_of, signed_form};
ghost use Rattle.builder.specs.Entries.{box_bytes, entry_bytes, entry_at};

use crate::boxes::Bounds;
use crate::put::put_varint;
use numbers::write::form_of;

// Where a yard's record begins in the metadata section, and its border in the data section.
#[derive(Clone, Copy)]
pub struct Places {
    pub record: u32,
    pub border: u32,
}

// The signed form of a step between two places: twice the size, odd only for negatives.
fn step_form(from: u32, to: u32) -> u64
    ensures { result ≡ signed_form (pos to -ℤ pos from) }
{
    if to < from {
        return (from - to) as u64 * 2 + 1;
    }
    (to - from) as u64 * 2
}

fn put_signed(out: &mut [u8], place: usize, z: i32) -> usize
    requires { place < 2 ^ 61 }
    ensures { Stored out.old place (varint_of (signed_form z)) out.new result }
{
    put_varint(out, place, form_of(0, z))
}

fn put_box(out: &mut [u8], place: usize, bounds: Bounds) -> usize
    requires { place < 2 ^ 60 }
    ensures { Stored out.old place (box_bytes bounds) out.new result }
{
    let south = put_signed(out, place, bounds.south);
    let west = put_signed(out, south, bounds.west);
    let north = put_signed(out, west, bounds.north);
    put_signed(out, north, bounds.east)
}

// The entry with this box and these places, behind one with the places `from`.
pub fn put_entry(out: &mut [u8], place: usize, bounds: Bounds, from: Places, to: Places) -> usize
    requires { place < 2 ^ 60 }
    ensures { Stored out.old place (entry_bytes from.record from.border (entry_at bounds to)) out.new result }
{
    let behind = put_box(out, place, bounds);
    let next = put_varint(out, behind, step_form(from.record, to.record));
    let step = (to.border as u64 + 0x1_0000_0000 - from.border as u64) % 0x1_0000_0000;
    put_varint(out, next, step)
}
