// The sums over the held yards, taken afresh.
// Stays, point 6: C lends these lists, longer than what stands in them, and keeps the builder's between the calls.
ghost use mathlib.Core.{Path.{◌≡◌}, List.{List}};
ghost use Rattle.std.specs.Prelude.{◌*◌, ◌≤◌};
ghost use lib.{Dec.{eqb, leb}, ListN.{length}};
ghost use Rattle.builder.specs.{Borders.{Drawn}, Entries.{highest_of}, File.{up_to}, Yards.{Yard, sum_of}};
ghost use Rattle.build.specs.Room.{work_of};
ghost use Rattle.draft.specs.Held.{State.{Stands}, Totals.{file_size}};
ghost use Rattle.draft.specs.inner.Summed.Sums.{Summing, SumsUp, souths_of, sized};

use crate::summed::arrange::lay_out;
use build::room::up_to;
use build::write::table_size;
use layout::records::size_of_varint;

// The bytes of the table and of the metadata, the greatest lower latitude, and the bytes of the records.
#[derive(Clone, Copy)]
pub struct Sums {
    pub table: usize,
    pub metadata: usize,
    pub greatest: i32,
    pub records: u32,
}

// The greatest of the lower latitudes, which stand at every fourth place; 0 of none.
fn greatest_of(boxes: &[i32], count: usize) -> i32
    requires { (4 * count ≤ length boxes.now) × (count ≤ 4096) }
    ensures { result ≡ highest_of (souths_of boxes.now count) }
{
    if count == 0 {
        return 0;
    }
    let mut greatest = boxes[0];
    for yard in 1..count {
        let south = boxes[4 * yard];
        if greatest < south {
            greatest = south;
        }
    }
    greatest
}

// The lengths sum up to this. Taken away from it one by one, so that no sum is too large.
pub fn is_sum(lengths: &[u32], sum: usize) -> bool
    ensures { result ≡ eqb (sum_of lengths.now) sum }
{
    let mut left = sum;
    for length in lengths {
        let length = *length as usize;
        if left < length {
            return false;
        }
        left -= length;
    }
    left == 0
}

// None if the lengths are not those of the texts.
pub fn sum_up(
    names: usize,
    count: usize,
    boxes: &[i32],
    borders: &[u32],
    lengths: &[u32],
    texts: &[u8],
    starts: &mut [u32],
    keys: &mut [u64],
    spare: &mut [u64],
    kept: &mut [u32],
    held: &mut [u8],
    words: &mut [u32],
    places: &mut [u32],
) -> Option<Sums>
    requires { Summing names count (length lengths.now) (length borders.now) (length texts.now) (work_of (length starts.old) (length keys.old) (length spare.old) (length kept.old) (length held.old) (length words.old) (length places.old) (length boxes.now)) }
    ensures { (yards : List Yard) (drawn : Drawn) → Stands yards drawn names count boxes.now borders.now lengths.now texts.now → SumsUp yards drawn places.new result }
{
    // So many texts of 255 bytes are shorter.
    if 0x2000_0000 < texts.len() {
        return None;
    }
    if !is_sum(lengths, texts.len()) {
        return None;
    }
    let section = lay_out(
        names, count, boxes, borders, lengths, texts, starts, keys, spare, kept, held, words,
        places,
    );
    Some(Sums {
        table: table_size(&keys[..count], boxes, places),
        metadata: section.records as usize + section.remote as usize,
        greatest: greatest_of(boxes, count),
        records: section.records,
    })
}

// Whether a file of these sections fits, behind a head of this length. None of them may be over 1 GiB, so no sum is too large.
pub fn fits(head: usize, table: usize, metadata: usize, bytes: usize, room: usize) -> bool
    ensures { result ≡ leb (file_size head (sized table metadata bytes)) (up_to room) }
{
    if 0x4000_0000 < head {
        return false;
    }
    if 0x4000_0000 < table {
        return false;
    }
    if 0x4000_0000 < metadata {
        return false;
    }
    if 0x4000_0000 < bytes {
        return false;
    }
    let sizes = size_of_varint(table as u64)
        + size_of_varint(metadata as u64)
        + size_of_varint(bytes as u64);
    head + sizes + table + metadata + bytes <= up_to(room)
}
