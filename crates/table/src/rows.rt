// The rows of the box table: each entry with its place, its number and the sums of metadata id and border place up to it.
// Stays, point 7: a file is read plainly or strictly as C asks; the definitions take a Bool, a const parameter would compile it twice.
ghost use Rattle.std.specs.Prelude.{◌≡◌, ◌+◌, ◌%◌, ◌^◌};
ghost use Rattle.numbers.specs.{Point.{low32, half_of}, Varint.{told, reading_of}};
ghost use Rattle.table.specs.Rows.{row_of, after, start_at, row_by};

use crate::table::{Bounds, Entry, entry_at};
use numbers::varint::Stop;
use std::num::{wrapping_add_u32, wrapping_sub_u32};

// Where the table is read on: the next entry's place and number, and the sums before it.
#[derive(Clone, Copy)]
pub struct Cursor {
    pub place: usize,
    pub id: u32,
    pub metadata: u32,
    pub polygon: u32,
}

#[derive(Clone, Copy)]
pub struct Row {
    // Where its entry begins.
    pub place: usize,
    pub id: u32,
    // The sums, with its own steps.
    pub metadata: u32,
    pub polygon: u32,
    pub bounds: Bounds,
    // Where the next entry begins.
    pub next: usize,
}

// The metadata id after a signed step, modulo 2^32: half the number, back if it is odd.
fn moved_id(metadata: u32, step: u64) -> u32
    ensures { result ≡ (metadata + low32 (half_of step)) % 2 ^ 32 }
{
    let half = (step / 2 % 0x1_0000_0000) as u32;
    if step % 2 == 0 {
        wrapping_add_u32(metadata, half)
    } else {
        wrapping_sub_u32(metadata, half)
    }
}

// The row of an entry that was read at a cursor.
pub fn row_of(at: Cursor, entry: Entry) -> Row
    ensures { result ≡ row_of at entry }
{
    let polygon = (entry.polygon % 0x1_0000_0000) as u32;
    let bounds = entry.bounds;
    Row {
        place: at.place,
        id: at.id,
        metadata: moved_id(at.metadata, entry.metadata),
        polygon: wrapping_add_u32(at.polygon, polygon),
        bounds,
        next: entry.next,
    }
}

// Where the table goes on after a row.
pub fn after(row: Row) -> Cursor
    ensures { result ≡ after row }
{
    Cursor {
        place: row.next,
        id: wrapping_add_u32(row.id, 1),
        metadata: row.metadata,
        polygon: row.polygon,
    }
}

pub fn start_at(place: usize) -> Cursor
    ensures { result ≡ start_at place }
{
    Cursor {
        place,
        id: 0,
        metadata: 0,
        polygon: 0,
    }
}

// The row at a cursor.
pub fn row_at(file: &[u8], at: Cursor, strict: bool) -> Result<Row, Stop>
    ensures { told result ≡ row_by (reading_of strict file.now) at }
{
    let entry = entry_at(file, at.place, strict)?;
    Ok(row_of(at, entry))
}
