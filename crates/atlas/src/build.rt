// Building an atlas: the index, and behind it the length of all words, the entries and the marks.
// Stays, point 2: the words of a mark are told once, in `mark_of`; comparing (own.rt) ends at the first difference and has no room.
// Stays, point 6: `n` counts records and `used` the index's words, behind which more is written: neither is the list's length.
// Stays, point 5: any header is taken with any file, so a struct of `file, head` would hold no fact.
ghost use Rattle.std.specs.Prelude.{◌≡◌, ◌+◌, ◌*◌, ◌^◌, ◌<◌, ◌≤◌, length};
ghost use Rattle.atlas.specs.{Atlas.{beside_of, atlas_made}, inner.Building.{marks_by, behind_of}};
ghost use Rattle.index.specs.{Index.{records_at, indexed}, Tied.{word_at}};
ghost use Rattle.writer.specs.inner.Stored.{Stored};

use crate::entry::put_one;
use crate::words::low_of;
use header::header::{Head, head_of};
use header::zero::zero_words;
use index::build::build_index;
use index::tied::wide;
use index::words::put;
use numbers::fault::Fault;
use numbers::refusal::Refusal;

// Entries and marks, by the records in the words: the words before `first` stay.
fn put_beside(file: &[u8], head: Head, words: &mut [u32], n: usize, first: usize) -> usize
    requires { (n < 2 ^ 32) × (records_at + 7 * n ≤ length words.old) × (records_at + 7 * n ≤ first) × (first < 2 ^ 40) }
    ensures { Stored words.old first (beside_of (marks_by file.now head words.old n 0)) words.new result }
{
    let mut at = first + n;
    for k in 0..n {
        at = put_one(file, head, words, first, k, at);
    }
    at
}

// Behind the index, which ends at a place.
fn put_behind(file: &[u8], head: Head, words: &mut [u32], used: usize) -> usize
    requires { (records_at + 7 * word_at words.old 2 ≤ used) × (used ≤ length words.old) × (used < 2 ^ 32) }
    ensures { Stored words.old used (behind_of file.now head words.old used) words.new result }
{
    let n = wide(words[2]);
    let all = put_beside(file, head, words, n, used + 1);
    put(words, used, low_of(all));
    all
}

// The atlas of a file goes into the lent words. The answer: how many are used. Refused: opening's numbers, 16, 34, and 35 last; then every word is zero.
pub fn build_atlas(file: &[u8], words: &mut [u32]) -> Result<usize, Refusal>
    ensures { indexed result words.new ≡ atlas_made file.now (length words.old) }
{
    let head = match head_of(file) {
        Ok(head) => head,
        Err(why) => {
            zero_words(words);
            return Err(why);
        }
    };
    let used = build_index(file, words)?;
    let all = put_behind(file, head, words, used);
    if words.len() < all {
        zero_words(words);
        return Err(Fault::IndexFull.alone());
    }
    if 0xffff_ffff < all {
        zero_words(words);
        return Err(Fault::IndexFull.alone());
    }
    Ok(all)
}
