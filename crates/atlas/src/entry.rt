// One entry of an atlas: its word, and the marks of its border.
// Stays, point 2: writing says a place, comparing a refusal; the words that both need are told once (`course_of`, `entry_for`).
// Stays, point 5: any header is taken with any file, so a struct of `file, head` would hold no fact.
// Stays, point 4: words are held against what a file says, so no derive and no `==` of slices serves; `size_of` is a word of the definitions.
ghost use Rattle.std.specs.Prelude.{◌≡◌, ◌+◌, ◌-◌, ◌*◌, ◌^◌, ◌<◌, ◌≤◌, length};
ghost use Rattle.atlas.specs.{Atlas.{entry_of}, inner.{Building.{marks_at_record, size_of, entry_for, PutOne, stands_one}, Marking.{marks_of}}};
ghost use Rattle.index.specs.Index.{records_at};
ghost use Rattle.table.specs.MarkedRows.{encoding_in};

use crate::course::{Course, course_at};
use crate::put::put_marks;
use crate::same::same_marks;
use crate::words::low_of;
use header::header::Head;
use index::build::RECORDS_AT;
use index::words::{is_word, put};
use marks::words::{MARK, groups_of};
use numbers::fault::Fault;
use numbers::refusal::Refusal;
use std::num::wrapping_add_u32;
use table::marked::encoding_of;

// The border of record k, read to its end once.
fn course_of(file: &[u8], head: Head, words: &[u32], k: usize) -> Course
    requires { records_at + 7 * k + 7 ≤ length words.now }
    ensures { (marks_of file.now (encoding_in head) result ≡ marks_at_record file.now head words.now k) × (result.count ≤ 2 ^ 18) }
{
    let sections = head.sections;
    let encoding = encoding_of(head);
    let polygon = words[RECORDS_AT + 7 * k + 2];
    let place = wrapping_add_u32(sections.data, polygon) as usize;
    course_at(file, encoding, place)
}

// How many words its marks have.
fn size_of(count: usize) -> usize
    requires { count ≤ 2 ^ 18 }
    ensures { (result ≡ size_of count) × (result ≤ 2 ^ 22) }
{
    if count == 0 {
        return 0;
    }
    let groups = groups_of(count);
    1 + MARK * count + MARK * groups
}

// An entry's word, with marks from one place to another.
fn entry_for(at: usize, next: usize) -> u32
    ensures { result ≡ entry_for at next }
{
    if at == next {
        return 0;
    }
    low_of(at)
}

// Record k's word goes to its place behind `first`, its marks to `at`. The place behind them.
pub(crate) fn put_one(
    file: &[u8],
    head: Head,
    words: &mut [u32],
    first: usize,
    k: usize,
    at: usize,
) -> usize
    requires { (records_at + 7 * k + 7 ≤ length words.old) × (records_at + 7 * k + 7 ≤ first) × (first + k < at) × (at < 2 ^ 56) }
    ensures { (PutOne words.old (first + k) at (entry_of (at - first) (marks_at_record file.now head words.old k))
        (marks_at_record file.now head words.old k) words.new result) × (result ≤ at + 2 ^ 22) }
{
    let encoding = encoding_of(head);
    let course = course_of(file, head, words, k);
    let next = put_marks(file, encoding, course, words, at);
    let word = entry_for(at - first, next - first);
    put(words, first + k, word);
    next
}

// Whether they stand there. The answer: the place behind the marks.
pub(crate) fn same_one(
    file: &[u8],
    head: Head,
    words: &[u32],
    first: usize,
    k: usize,
    at: usize,
) -> Result<usize, Refusal>
    requires { (records_at + 7 * k + 7 ≤ length words.now) × (first + k < at) × (at < 2 ^ 56) }
    ensures { (result ≡ stands_one words.now (first + k) at (entry_of (at - first) (marks_at_record file.now head words.now k))
        (marks_at_record file.now head words.now k)) × (length (marks_at_record file.now head words.now k) ≤ 2 ^ 22) }
{
    let encoding = encoding_of(head);
    let course = course_of(file, head, words, k);
    let next = at + size_of(course.count);
    let word = entry_for(at - first, next - first);
    if !is_word(words, first + k, word) {
        return Err(Fault::OtherIndex.alone());
    }
    if !same_marks(file, encoding, course, words, at) {
        return Err(Fault::OtherIndex.alone());
    }
    Ok(next)
}
