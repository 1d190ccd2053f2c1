// Marks held against words.
// Stays, point 2: the words of a mark are told once, in `mark_of`; comparing ends at the first difference, writing does not.
// Stays, point 6: `count` is of stretches, not of words or bytes.
// Stays, point 4: words are held against what a file says, so no derive and no `==` of slices serves.
ghost use Rattle.std.specs.Prelude.{◌^◌, ◌<◌, ◌≡◌};
ghost use Rattle.marks.specs.Marks.{marks_from};
ghost use Rattle.index.specs.inner.Own.{is_at};
ghost use Rattle.atlas.specs.inner.Marking.{marks_of};

use crate::course::Course;
use crate::span::span_from;
use crate::words::{low_of, mark_of};
use border::reader::{Encoding, Reader};
use index::words::{is_word, stand};
use marks::words::{GROUP, MARK, STRETCH, groups_of};

// Whether the marks of so many stretches from a state on, each of so many edges, stand from a place on.
fn same_level(
    file: &[u8],
    encoding: Encoding,
    start: Reader,
    edges: usize,
    count: usize,
    words: &[u32],
    place: usize,
) -> bool
    requires { (place < 2 ^ 57) × (count < 2 ^ 32) }
    ensures { result ≡ is_at words.now place (marks_from edges count file.now encoding start) }
{
    let mut at = place;
    let mut reader = start;
    for _ in 0..count {
        let reach = span_from(file, encoding, reader, edges);
        if !stand(words, at, &mark_of(reader, reach.frame)) {
            return false;
        }
        at += MARK;
        reader = reach.last;
    }
    true
}

// Whether all marks of a border stand from a place on; nothing of one that has none.
pub(crate) fn same_marks(
    file: &[u8],
    encoding: Encoding,
    course: Course,
    words: &[u32],
    place: usize,
) -> bool
    requires { (place < 2 ^ 56) × (course.count < 2 ^ 32) }
    ensures { result ≡ is_at words.now place (marks_of file.now encoding course) }
{
    let first = course.first;
    let count = course.count;
    if count == 0 {
        return true;
    }
    if !is_word(words, place, low_of(count)) {
        return false;
    }
    let second = place + 1;
    if !same_level(file, encoding, first, STRETCH, count, words, second) {
        return false;
    }
    let groups = groups_of(count);
    let third = second + MARK * count;
    same_level(file, encoding, first, GROUP, groups, words, third)
}
