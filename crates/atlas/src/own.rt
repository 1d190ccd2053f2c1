// Whether words are the atlas that building gives for a file, whoever wrote them: each word is worked out again and compared, without room for them.
// Stays, point 2: the words of a mark are told once, in `mark_of`; comparing ends at the first difference and says a refusal.
// Stays, point 6: `n` counts records and `used` the index's words, behind which more is read: neither is the list's length.
// Stays, point 5: any header is taken with any file, so a struct of `file, head` would hold no fact.
// Stays, point 4: words are held against what a file says, so no derive and no `==` of slices serves; `end_of` is no conversion.
ghost use Rattle.std.specs.Prelude.{◌≡◌, ◌+◌, ◌*◌, ◌^◌, ◌<◌, ◌≤◌, length};
ghost use Rattle.atlas.specs.{Atlas.{beside_of, is_atlas_of}, inner.Building.{marks_by, behind_of, is_behind, end_of}};
ghost use Rattle.index.specs.{Index.{records_at}, Tied.{word_at}, inner.Own.{stands_from}};

use crate::entry::same_one;
use crate::words::low_of;
use header::header::{Head, head_of};
use index::build::RECORDS_AT;
use index::own::{is_empty_from, is_index};
use index::tied::wide;
use index::words::is_word;
use numbers::fault::Fault;
use numbers::refusal::Refusal;

// Entries and marks, by the records in the words. The answer: the place behind them.
fn same_beside(
    file: &[u8],
    head: Head,
    words: &[u32],
    n: usize,
    first: usize,
) -> Result<usize, Refusal>
    requires { (n < 2 ^ 32) × (records_at + 7 * n ≤ length words.now) × (first < 2 ^ 40) }
    ensures { result ≡ stands_from words.now first (beside_of (marks_by file.now head words.now n 0)) }
{
    let mut at = first + n;
    for k in 0..n {
        at = same_one(file, head, words, first, k, at)?;
    }
    Ok(at)
}

// All that stands behind the index, which ends at a place.
fn same_behind(file: &[u8], head: Head, words: &[u32], used: usize) -> bool
    requires { (records_at + 7 * word_at words.now 2 ≤ length words.now) × (used < 2 ^ 32) }
    ensures { result ≡ is_behind words.now (behind_of file.now head words.now used) used }
{
    let n = wide(words[2]);
    let Ok(all) = same_beside(file, head, words, n, used + 1) else {
        return false;
    };
    if !is_word(words, used, low_of(all)) {
        return false;
    }
    if 0xffff_ffff < all {
        return false;
    }
    is_empty_from(words, all)
}

// Where the index ends, if the words are an atlas.
fn end_of(words: &[u32]) -> usize
    ensures { (result ≡ end_of words.now) × (result ≤ length words.now) × (result < 2 ^ 32) }
{
    if words.len() < RECORDS_AT {
        return 0;
    }
    let end = wide(words[2051]);
    if words.len() < end {
        return 0;
    }
    end
}

// Whether the words are those that `build_atlas`, lent as many, leaves for this file: 0 exactly there, else 36.
pub fn is_atlas(file: &[u8], words: &[u32]) -> Result<(), Refusal>
    ensures { result ≡ is_atlas_of file.now words.now }
{
    let end = end_of(words);
    if is_index(file, &words[0..end]).is_err() {
        return Err(Fault::OtherIndex.alone());
    }
    let Ok(head) = head_of(file) else {
        return Err(Fault::OtherIndex.alone());
    };
    if !same_behind(file, head, words, end) {
        return Err(Fault::OtherIndex.alone());
    }
    Ok(())
}
