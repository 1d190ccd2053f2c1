// Whether an index goes with a file: by length, and by a comparison of every byte of header and table.
// Stays, point 6: the file may be shorter than `size` bytes, and what it lacks is 0 (kept_of), so no slice says as much.
// Stays, point 5: any header is taken with any file, so a struct of `file, head` would hold no fact.
ghost use Rattle.std.specs.Prelude.{◌≡◌, ◌+◌, ◌*◌, ◌/◌, ◌^◌, ◌<◌, ◌≤◌, length, take};
ghost use Rattle.numbers.specs.Spoken.{said_of, no_values};
ghost use Rattle.index.specs.{Index.{words_for}, Tied.{is_headed, keeps_from, is_tied, tied_with, tied_of}};

use crate::build::RECORDS_AT;
use crate::kept::four_at;
use header::header::{Head, head_of};
use numbers::fault::Fault;
use numbers::refusal::Refusal;
use numbers::said::{Said, say_refused};
use table::find::is_precision;

// What is said of it to C.
pub fn say_tied(tied: Result<(), Refusal>) -> Said
    ensures { result ≡ said_of no_values tied }
{
    match tied {
        Ok(()) => Said {
            number: 0,
            words: [0; 5],
        },
        Err(why) => say_refused(why),
    }
}

pub fn wide(word: u32) -> usize
    ensures { (result ≡ word) × (result < 2 ^ 32) }
{
    word as usize
}

pub(crate) fn is_headed(index: &[u32], size: u32, length: usize) -> bool
    ensures { result ≡ is_headed index.now size length }
{
    if index.len() < RECORDS_AT {
        return false;
    }
    if wide(index[0]) != length {
        return false;
    }
    if index[1] != size {
        return false;
    }
    let begin = RECORDS_AT + 7 * wide(index[2]) + (size as usize + 3) / 4;
    if wide(index[3]) != begin {
        return false;
    }
    if index.len() < begin {
        return false;
    }
    wide(index[2051]) <= index.len()
}

// Stays by hand: four bytes are held against each word, so no `==` of slices serves.
pub(crate) fn keeps(file: &[u8], size: usize, index: &[u32], from: usize) -> bool
    requires { (size < 2 ^ 32) × («from» + words_for size ≤ length index.now) × («from» < 2 ^ 50) }
    ensures { result ≡ keeps_from index.now «from» (take size file.now) (words_for size) 0 }
{
    let mut at = from;
    let mut place = 0;
    // Stays a `while` by fours, as in `put_kept`.
    while place < size {
        if index[at] != four_at(file, size, place) {
            return false;
        }
        at += 1;
        place += 4;
    }
    true
}

fn is_tied(file: &[u8], head: Head, index: &[u32]) -> bool
    ensures { result ≡ is_tied file.now head index.now }
{
    let sections = head.sections;
    let size = sections.metadata;
    if is_headed(index, size, file.len()) {
        return keeps(file, size as usize, index, RECORDS_AT + 7 * wide(index[2]));
    }
    false
}

// In a file whose header was read: 16, 36.
pub(crate) fn tied_with(file: &[u8], head: Head, index: &[u32]) -> Result<(), Refusal>
    ensures { result ≡ tied_with file.now head index.now }
{
    let preamble = head.preamble;
    if !is_precision(preamble.precision) {
        return Err(Fault::BadPrecision.alone());
    }
    if !is_tied(file, head, index) {
        return Err(Fault::OtherIndex.alone());
    }
    Ok(())
}

// Whether words have the length of this file and its bytes up to the metadata; their records, starts and lists are not looked at. Refused: opening's numbers, 16, 36.
// Stays apart: two lines, over another definition than `is_index`.
pub fn index_tied(file: &[u8], index: &[u32]) -> Result<(), Refusal>
    ensures { result ≡ tied_of file.now index.now }
{
    let head = head_of(file)?;
    tied_with(file, head, index)
}
