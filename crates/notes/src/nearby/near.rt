// A table with one entry more: the neighbours of the new entry, and what it adds to the table's bytes.
// Stays, point 1: the first entry's places are counted from 0 (places_of), which is a place and no sign.
// Stays, point 6: C lends and keeps these lists, longer than what stands in them; a list of no bytes, written into, tells a size.
ghost use mathlib.Core.{Path.{◌≡◌}, List.{[], ◌∷◌, ◌++◌}};
ghost use Rattle.std.specs.Prelude.{◌+◌, ◌*◌, ◌^◌, ◌≤◌, ◌<◌, length};
ghost use Rattle.builder.specs.Entries.{bounds_at, entry_at, entry_bytes, highest_of, table_of};
ghost use Rattle.notes.specs.inner.Nearby.Nearby.{entries_at, entry_with, south_at, Nears, places_of, size_behind, Reaching};
ghost use Rattle.draft.specs.inner.Summed.Sums.{souths_of};
ghost use Rattle.notes.specs.Chains.Chains.{word_of};

use builder::boxes::Bounds;
use builder::entry::{Places, put_entry};

// The neighbours of a yard, if it has them.
#[derive(Clone, Copy)]
pub(crate) struct Near {
    low: Option<usize>,
    high: Option<usize>,
}

// A yard's lower latitude, counted from the south, so that 0 is above none and 2 ^ 32 above all.
fn south_at(boxes: &[i32], yard: usize) -> u64
    requires { (4 * yard < length boxes.now) × (yard ≤ 4096) }
    ensures { (result ≡ south_at boxes.now yard) × (result < 2 ^ 32) }
{
    let up = (boxes[4 * yard] as i64) + 0x8000_0000;
    up as u64
}

// The last yard in the table that is not above yard number `count`, and the first that is. Of yards with equal latitudes the later one stands last.
fn neighbours(boxes: &[i32], count: usize) -> Near
    requires { (4 * count + 4 ≤ length boxes.now) × (count ≤ 4096) }
    ensures { Nears boxes.now count (word_of result.low) (word_of result.high) }
{
    let south = south_at(boxes, count);
    // Stays numbers, a yard and one more or 0 for none, until the end: with an Option a jump decides each update, which costs twice the time where latitudes come in no order.
    let mut low: usize = 0;
    let mut below = 0;
    let mut high: usize = 0;
    let mut above = 0x1_0000_0000;
    for yard in 0..count {
        let here = south_at(boxes, yard);
        if here <= south {
            if below <= here {
                below = here;
                low = yard + 1;
            }
        } else if here < above {
            above = here;
            high = yard + 1;
        }
    }
    Near {
        low: low.checked_sub(1),
        high: high.checked_sub(1),
    }
}

// Four numbers a yard.
fn box_at(boxes: &[i32], yard: usize) -> Bounds
    requires { (4 * yard + 4 ≤ length boxes.now) × (yard ≤ 4096) }
    ensures { result ≡ bounds_at boxes.now yard }
{
    let at = 4 * yard;
    Bounds {
        south: boxes[at],
        west: boxes[at + 1],
        north: boxes[at + 2],
        east: boxes[at + 3],
    }
}

// Where the record and the border of a neighbour begin; 0 where there is none.
fn places_of(begins: &[u32], borders: &[u32], near: Option<usize>) -> Places
    requires { (word_of near ≤ length begins.now) × (word_of near ≤ length borders.now) }
    ensures { result ≡ places_of begins.now borders.now (word_of near) }
{
    match near {
        Some(yard) => Places {
            record: begins[yard],
            border: borders[yard],
        },
        None => Places {
            record: 0,
            border: 0,
        },
    }
}

// The bytes of an entry behind one with the places `from`.
// Stays apart: two lines; another writer writes into no room elsewhere.
fn entry_size(bounds: Bounds, from: Places, to: Places) -> usize
    ensures { result ≡ length (entry_bytes from.record from.border (entry_at bounds to)) }
{
    let mut nothing = [0u8; 0];
    put_entry(&mut nothing, 0, bounds, from, to)
}

// The bytes of a neighbour behind an entry with the places `from`.
fn size_behind(
    boxes: &[i32],
    begins: &[u32],
    borders: &[u32],
    from: Places,
    near: Option<usize>,
) -> usize
    requires { (4 * word_of near ≤ length boxes.now) × (word_of near ≤ length begins.now) × (word_of near ≤ length borders.now) × (word_of near ≤ 4096) }
    ensures { result ≡ size_behind boxes.now begins.now borders.now from (word_of near) }
{
    let Some(yard) = near else {
        return 0;
    };
    entry_size(box_at(boxes, yard), from, places_of(begins, borders, near))
}

// The bytes of the table with yard number `count`, whose record begins at `begin`: the new entry, and what it changes of the one behind it.
// A table that cannot be theirs is answered by 0.
pub(crate) fn table_more(
    table: usize,
    boxes: &[i32],
    begins: &[u32],
    borders: &[u32],
    count: usize,
    begin: u32,
) -> usize
    requires { Reaching (length boxes.now) (length begins.now) (length borders.now) count × (table ≤ 2 ^ 40) }
    ensures is { table ≡ length (table_of (entries_at boxes.now begins.now borders.now count))
        → result ≡ length (table_of (entries_at boxes.now begins.now borders.now count ++ (entry_with boxes.now borders.now count begin ∷ []))) }
    ensures small { result ≤ table + 100 }
{
    let near = neighbours(boxes, count);
    let from = places_of(begins, borders, near.low);
    let here = Places {
        record: begin,
        border: borders[count],
    };
    let new = entry_size(box_at(boxes, count), from, here);
    let behind = size_behind(boxes, begins, borders, here, near.high);
    let before = size_behind(boxes, begins, borders, from, near.high);
    let grown = table + new + behind;
    if grown < before {
        return 0;
    }
    grown - before
}

// The greatest lower latitude with that of yard number `count`, which is the greatest if it is the only one.
pub(crate) fn greatest_with(greatest: i32, boxes: &[i32], count: usize) -> i32
    requires { (4 * count < length boxes.now) × (count < 4096) }
    ensures { greatest ≡ highest_of (souths_of boxes.now count) → result ≡ highest_of (souths_of boxes.now (count + 1)) }
{
    let south = boxes[4 * count];
    if count == 0 {
        return south;
    }
    if greatest < south {
        return south;
    }
    greatest
}
