// The data section: the kept borders, one behind the other.
// Stays, point 5: any header is taken with any file, so a struct of `file, head` would hold no fact.
ghost use mathlib.Core.List.{flat_map};
ghost use Rattle.salvage.specs.inner.Moves.Laid.{Capped};
ghost use Rattle.table.specs.Rows.{rows_in};
ghost use Rattle.salvage.specs.{File.{border_bytes}, Kept.{kept_of}};

use crate::entry::{encoding_in, section_place};
use crate::moves::redraw::put_border;
use crate::walk::next_kept;
use header::header::Head;
use table::rows::{after, start_at};

// Each kept border at its place, and the place behind the last.
// Stays a loop: no index is counted; where the next entry is searched, the one before it says.
pub(crate) fn put_data(file: &[u8], head: Head, out: &mut [u8], at: usize) -> usize
    ensures { Capped out.old at (flat_map (border_bytes file.now head) (kept_of file.now head (rows_in file.now head))) out.new result }
{
    let mut next = at;
    let mut from = start_at(head.sections.table as usize);
    while let Some(row) = next_kept(file, head, from) {
        let place = section_place(head.sections.data, row.polygon);
        next = put_border(file, encoding_in(head), place, out, next);
        from = after(row);
    }
    next
}
