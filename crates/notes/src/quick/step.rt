// A yard more in a builder, where its step is sure: it shares a record, or has one of its own that changes no other.
// Stays, point 6: C lends these lists, longer than what stands in them, and keeps the builder's and the notes' between the calls.
ghost use Rattle.std.specs.Prelude.{List, ℕ, ◌^◌, ◌≤◌, length};
ghost use Rattle.builder.specs.{Borders.{Drawn}, Yards.{Yard}};
ghost use Rattle.notes.specs.inner.Nearby.Nearby.{Reaching};
ghost use Rattle.notes.specs.inner.Noted.OneMore.{OneMore};
ghost use Rattle.notes.specs.inner.Quick.Steps.{Stepping, Grown, Steps, Room};

use crate::chains::texts::Texts;
use crate::nearby::near::{greatest_with, table_more};
use crate::quick::place::place_record;

// Of the yards that are held: the bytes of the records, of the metadata and of the table, and the greatest lower latitude.
#[derive(Clone, Copy)]
pub struct Numbers {
    pub records: usize,
    pub metadata: usize,
    pub table: usize,
    pub greatest: i32,
}

// The same with one yard more, and where its record begins.
#[derive(Clone, Copy)]
pub struct Stepped {
    pub records: usize,
    pub metadata: usize,
    pub table: usize,
    pub greatest: i32,
    pub begin: u32,
}

// With a yard more whose record adds so many bytes and begins there.
fn grow(
    count: usize,
    numbers: Numbers,
    by: usize,
    begin: u32,
    boxes: &[i32],
    borders: &[u32],
    begins: &[u32],
) -> Stepped
    requires { Reaching (length boxes.now) (length begins.now) (length borders.now) count × (numbers.records ≤ 2 ^ 30) × (numbers.metadata ≤ 2 ^ 30) × (numbers.table ≤ 2 ^ 30) × (by ≤ 2 ^ 41) }
    ensures { (yards : List Yard) (y : Yard) (drawn drawn' : Drawn) (names : ℕ) (lengths starts texts chains groups : List ℕ)
        → Stepping yards y drawn drawn' names count numbers boxes.now borders.now lengths starts texts chains groups begins.now
        → OneMore yards y by begin → Grown yards y drawn' result }
{
    Stepped {
        records: numbers.records + by,
        metadata: numbers.metadata + by,
        table: table_more(numbers.table, boxes, begins, borders, count, begin),
        greatest: greatest_with(numbers.greatest, boxes, count),
        begin,
    }
}

// None where the yard may change another record, or the length of a word. The numbers may be forged too: they are compared before they are added.
pub fn step(
    names: usize,
    count: usize,
    numbers: Numbers,
    boxes: &[i32],
    borders: &[u32],
    starts: &[u32],
    texts: &[u8],
    chains: &[u32],
    groups: &[u32],
    begins: &[u32],
) -> Option<Stepped>
    requires { Room names count (length boxes.now) (length borders.now) (length starts.now) (length chains.now) (length groups.now) (length begins.now) }
    ensures { (yards : List Yard) (y : Yard) (drawn drawn' : Drawn) (lengths : List ℕ)
        → Stepping yards y drawn drawn' names count numbers boxes.now borders.now lengths starts.now texts.now chains.now groups.now begins.now
        → Steps yards y drawn' result }
{
    let texts = Texts {
        starts,
        bytes: texts,
    };
    let records = numbers.records;
    let metadata = numbers.metadata;
    if 0x4000_0000 < metadata {
        return None;
    }
    if 0x4000_0000 < numbers.table {
        return None;
    }
    if metadata < records {
        return None;
    }
    let remote = metadata - records;
    let placed = place_record(names, count, records, remote, texts, chains, groups, begins)?;
    Some(grow(
        count,
        numbers,
        placed.by,
        placed.begin,
        boxes,
        borders,
        begins,
    ))
}
