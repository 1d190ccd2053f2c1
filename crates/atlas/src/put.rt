// Marks into lent words.
// Stays, point 2: the words of a mark are told once, in `mark_of`; writing says a place, comparing (same.rt) whether all stand.
// Stays, point 6: `count` is of stretches, not of words or bytes.
ghost use Rattle.std.specs.Prelude.{◌^◌, ◌<◌};
ghost use Rattle.writer.specs.inner.Stored.{Stored};
ghost use Rattle.marks.specs.Marks.{marks_from};
ghost use Rattle.atlas.specs.inner.Marking.{marks_of};

use crate::course::Course;
use crate::span::span_from;
use crate::words::{low_of, mark_of};
use border::reader::{Encoding, Reader};
use index::words::{put, put_all};
use marks::words::{GROUP, STRETCH, groups_of};

// The marks of so many stretches from a state on, each of so many edges.
fn put_level(
    file: &[u8],
    encoding: Encoding,
    start: Reader,
    edges: usize,
    count: usize,
    words: &mut [u32],
    place: usize,
) -> usize
    requires { (place < 2 ^ 57) × (count < 2 ^ 32) }
    ensures { Stored words.old place (marks_from edges count file.now encoding start) words.new result }
{
    let mut at = place;
    let mut reader = start;
    for _ in 0..count {
        let reach = span_from(file, encoding, reader, edges);
        at = put_all(words, at, &mark_of(reader, reach.frame));
        reader = reach.last;
    }
    at
}

// All marks of a border, those of the groups last; nothing for one that has none.
pub(crate) fn put_marks(
    file: &[u8],
    encoding: Encoding,
    course: Course,
    words: &mut [u32],
    place: usize,
) -> usize
    requires { (place < 2 ^ 56) × (course.count < 2 ^ 32) }
    ensures { Stored words.old place (marks_of file.now encoding course) words.new result }
{
    let first = course.first;
    let count = course.count;
    if count == 0 {
        return place;
    }
    let second = put(words, place, low_of(count));
    let third = put_level(file, encoding, first, STRETCH, count, words, second);
    let groups = groups_of(count);
    put_level(file, encoding, first, GROUP, groups, words, third)
}
