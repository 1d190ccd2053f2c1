// Entries of the new table.
// Stays, point 5: any header is taken with any file, so a struct of `file, head` would hold no fact.
ghost use Rattle.std.specs.Prelude.{◌≡◌};
ghost use Rattle.salvage.specs.inner.Moves.Laid.{Capped};
ghost use Rattle.numbers.specs.Spelling.{signed_form};
ghost use Rattle.table.specs.Rows.{rows_in};
ghost use Rattle.salvage.specs.{File.{id_step, box_bytes, entry_bytes, border_bytes, table_from, all_short, Measured, Tabled}, Kept.{entry_good, kept_of}};

use crate::entry::{encoding_in, section_place};
use crate::moves::put::put_number;
use crate::moves::redraw::put_border;
use crate::walk::next_kept;
use header::header::Head;
use numbers::write::form_of;
use table::rows::{Row, after, start_at};
use table::table::Bounds;

// The signed form of a step between two metadata ids: their difference modulo 2^32, as an i32.
fn id_form(from: u32, to: u32) -> u64
    ensures { result ≡ signed_form (id_step from to) }
{
    let step = (to as u64 + 0x1_0000_0000 - from as u64) % 0x1_0000_0000;
    if step < 0x8000_0000 {
        return step * 2;
    }
    (0x1_0000_0000 - step) * 2 + 1
}

// The old box, as four signed numbers.
fn put_box(out: &mut [u8], at: usize, bounds: Bounds) -> usize
    ensures { Capped out.old at (box_bytes bounds) out.new result }
{
    let south = put_number(out, at, form_of(0, bounds.min_lat.0));
    let west = put_number(out, south, form_of(0, bounds.min_lon.0));
    let north = put_number(out, west, form_of(0, bounds.max_lat.0));
    put_number(out, north, form_of(0, bounds.max_lon.0))
}

// The entry of a row behind one with this metadata id, whose border has so many bytes.
fn put_entry(out: &mut [u8], at: usize, id: u32, size: u64, row: Row) -> usize
    ensures { Capped out.old at (entry_bytes id size row) out.new result }
{
    let next = put_box(out, at, row.bounds);
    let behind = put_number(out, next, id_form(id, row.metadata));
    put_number(out, behind, size)
}

// How many bytes a kept row's border has: it is written into no room.
// Stays an array: of no bytes; what is written into it is counted, without a heap.
fn border_size(file: &[u8], head: Head, row: Row) -> usize
    ensures { Measured (entry_good file.now head row) (border_bytes file.now head row) result }
{
    let place = section_place(head.sections.data, row.polygon);
    let mut nothing = [0u8; 0];
    put_border(file, encoding_in(head), place, &mut nothing, 0)
}

// An entry for each kept row, and the place behind the last.
// Stays a loop: no index is counted; where the next entry is searched, the one before it says.
pub(crate) fn put_table(file: &[u8], head: Head, out: &mut [u8], at: usize) -> usize
    ensures { Tabled (all_short file.now head (kept_of file.now head (rows_in file.now head)))
        out.old at (table_from file.now head 0 0 (kept_of file.now head (rows_in file.now head))) out.new result }
{
    let mut next = at;
    let mut id: u32 = 0;
    let mut size: usize = 0;
    let mut from = start_at(head.sections.table as usize);
    while let Some(row) = next_kept(file, head, from) {
        next = put_entry(out, next, id, size as u64, row);
        size = border_size(file, head, row);
        id = row.metadata;
        from = after(row);
    }
    next
}
