// The table goes into the index row by row, if it can be read, does not run past its end, and is in order.
// Stays, point 5: any header is taken with any file, so a struct of `file, head` would hold no fact.
ghost use Rattle.std.specs.Prelude.{◌≡◌, ◌^◌, ◌<◌};
ghost use Rattle.index.specs.{inner.Building.{Recorded, next_of}, Index.{record_of}, Table.{is_next, table_of}};
ghost use Rattle.numbers.specs.Varint.{reading_of};
ghost use Rattle.table.specs.{Rows.{row_by}, inner.Agreeing.{Agrees}};

use crate::build::RECORDS_AT;
use crate::words::put_all;
use border::place::FixedLat;
use header::header::Head;
use numbers::fault::Fault;
use numbers::refusal::Refusal;
use table::rows::{Cursor, Row, after, row_at, start_at};

// A row's words: where its entry stands, its sums, and its box.
// Stays by hand: it is a word of the definitions; a row cannot be had back from its words.
pub(crate) fn record_of(row: Row) -> [u32; 7]
    requires { row.place < 2 ^ 32 }
    ensures { result ≡ record_of row }
{
    let bounds = row.bounds;
    [
        row.place as u32,
        row.metadata,
        row.polygon,
        bounds.min_lat.0.cast_unsigned(),
        bounds.min_lon.0.cast_unsigned(),
        bounds.max_lat.0.cast_unsigned(),
        bounds.max_lon.0.cast_unsigned(),
    ]
}

// Whether a row may stand in the table: it does not run past the end, and is not below the row before it.
fn is_next(row: Row, end: usize, floor: FixedLat) -> bool
    ensures { result ≡ is_next end floor.0 row }
{
    row.next <= end && floor.0 <= row.bounds.min_lat.0
}

// The row at a cursor, if it can be read, does not run past the table's end, and is not below the row before it.
pub(crate) fn next_row(file: &[u8], head: Head, at: Cursor, floor: FixedLat) -> Result<Row, Refusal>
    ensures { result ≡ next_of head.sections.metadata floor.0 (row_by (reading_of head.strict file.now) at) }
{
    let Ok(row) = row_at(file, at, head.strict) else {
        return Err(Fault::BadTable.alone());
    };
    if !is_next(row, head.sections.metadata as usize, floor) {
        return Err(Fault::BadTable.alone());
    }
    Ok(row)
}

// The answer: how many rows the table has.
// Stays apart: the words of a row are told once, in `record_of`; comparing (own.rt) goes on to the table's end and says another refusal.
pub(crate) fn put_table(file: &[u8], head: Head, index: &mut [u32]) -> Result<usize, Refusal>
    ensures { Agrees (Recorded index.old index.new) (table_of file.now head) result }
{
    let sections = head.sections;
    let end = sections.metadata as usize;
    let mut at = start_at(sections.table as usize);
    let mut floor = FixedLat(-2147483648);
    let mut place = RECORDS_AT;
    let mut n = 0;
    // Stays a `while`: the step is the cursor's.
    while at.place < end {
        let row = next_row(file, head, at, floor)?;
        let bounds = row.bounds;
        place = put_all(index, place, &record_of(row));
        floor = bounds.min_lat;
        at = after(row);
        n += 1;
    }
    Ok(n)
}
