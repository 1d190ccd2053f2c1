// The rows that are kept, one after the other.
// Stays, point 5: any header is taken with any file, so a struct of `file, head` would hold no fact.
ghost use Rattle.std.specs.Prelude.{◌≡◌};
ghost use Rattle.salvage.specs.Kept.{entry_good, goodness, FirstKept};

use crate::entry::entry_good;
use header::header::Head;
use table::rows::{Cursor, Row, after, row_at};

pub(crate) fn is_good(file: &[u8], head: Head, row: Row) -> bool
    ensures { result ≡ goodness (entry_good file.now head row) }
{
    entry_good(file, head, row).is_ok()
}

// The first row from a cursor on that is kept.
pub(crate) fn next_kept(file: &[u8], head: Head, from: Cursor) -> Option<Row>
    ensures { FirstKept file.now head from result }
{
    let end = head.sections.metadata as usize;
    let mut at = from;
    // Stays a `while`: the step is the cursor's.
    while at.place < end {
        let Ok(row) = row_at(file, at, head.strict) else {
            return None;
        };
        at = after(row);
        if is_good(file, head, row) {
            return Some(row);
        }
    }
    None
}
