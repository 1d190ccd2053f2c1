// The list of dropped entries: the number of each, and the first reason met.
// Stays, point 5: any header is taken with any file, so a struct of `file, head` would hold no fact.
ghost use Rattle.std.specs.Prelude.{◌^◌, ◌<◌, set, ◌≡◌, [], ◌∷◌};
ghost use Rattle.writer.specs.inner.Stored.{Stored};
ghost use Rattle.numbers.specs.Varint.{reading_of};
ghost use Rattle.salvage.specs.Kept.{entry_good};
ghost use Rattle.table.specs.Rows.{after, row_by};
ghost use Rattle.salvage.specs.inner.Rescue.Turns.{judged_turn, turn_by, Listed};

use crate::entry::entry_good;
use header::header::Head;
use numbers::fault::Fault;
use numbers::refusal::or_refuse;
use table::rows::{Cursor, Row, after, row_at, start_at};

// Why an entry is dropped, and where the table goes on.
#[derive(Clone, Copy)]
pub struct Dropped {
    pub reason: u8,
    pub next: Cursor,
}

// What becomes of the entry at a cursor. Stays an enum of its own: there are three cases, and a reason is the number that the list keeps.
#[derive(Clone, Copy)]
pub enum Turn {
    Kept(Cursor),
    Dropped(Dropped),
    // The table ends here, with this reason.
    Unreadable(u8),
}

// How many words the list has, and how many entries are kept.
#[derive(Clone, Copy)]
pub struct Lines {
    pub words: usize,
    pub kept: usize,
}

// A word where there is room for it.
fn put_word(list: &mut [u32], at: usize, word: u32)
    ensures { list.new ≡ set list.old at word }
{
    if at < list.len() {
        list[at] = word;
    }
}

// A line, and the place behind it.
fn put_line(list: &mut [u32], at: usize, number: u32, reason: u8) -> usize
    requires { at < 2 ^ 34 }
    ensures { Stored list.old at (number ∷ reason ∷ []) list.new result }
{
    put_word(list, at, number);
    put_word(list, at + 1, reason as u32);
    at + 2
}

// A row that was read is kept or dropped.
fn judge(file: &[u8], head: Head, row: Row) -> Turn
    ensures { result ≡ judged_turn (entry_good file.now head row) (after row) }
{
    let next = after(row);
    match entry_good(file, head, row) {
        Ok(()) => Turn::Kept(next),
        Err(why) => {
            let reason = why.number;
            Turn::Dropped(Dropped { reason, next })
        }
    }
}

pub(crate) fn turn_at(file: &[u8], head: Head, at: Cursor) -> Turn
    ensures { result ≡ turn_by file.now head (row_by (reading_of head.strict file.now) at) }
{
    match or_refuse(row_at(file, at, head.strict), Fault::EntryFails.alone()) {
        Ok(row) => judge(file, head, row),
        Err(why) => Turn::Unreadable(why.number),
    }
}

// Two words for each dropped entry, as many as fit; after an unreadable one a last line.
pub(crate) fn put_lines(file: &[u8], head: Head, list: &mut [u32]) -> Lines
    ensures { Listed file.now head list.old list.new result }
{
    let end = head.sections.metadata as usize;
    let mut at = start_at(head.sections.table as usize);
    let mut number: u32 = 0;
    let mut words: usize = 0;
    let mut kept: usize = 0;
    // Stays a `while`: the step is the cursor's.
    while at.place < end {
        match turn_at(file, head, at) {
            Turn::Kept(next) => {
                at = next;
                kept += 1;
                number += 1;
            }
            Turn::Dropped(dropped) => {
                words = put_line(list, words, number, dropped.reason);
                at = dropped.next;
                number += 1;
            }
            Turn::Unreadable(reason) => {
                let next = put_line(list, words, number, reason);
                let last = put_line(list, next, number + 1, Fault::NothingFollows.number());
                return Lines { words: last, kept };
            }
        }
    }
    Lines { words, kept }
}
