// Whether words are the index that building gives for a file, whoever wrote them: each word is worked out again and compared, without room for them.
// Stays, point 2: the words of a row are told once (`record_of`), what is listed once; comparing has no room to write and says a refusal.
// Stays, point 6: `n` counts records, and `size` is of the file's front: neither is the length of the words.
// Stays, point 5: any header is taken with any file, so a struct of `file, head` would hold no fact.
// Stays, point 4: words are held against what a file says, so no derive and no `==` of slices serves.
ghost use Rattle.std.specs.Prelude.{◌+◌, ◌*◌, ◌^◌, ◌<◌, ◌≤◌, length, ◌&&◌, [], ◌∷◌, ◌≡◌};
ghost use Rattle.index.specs.{inner.Building.{list_in, lists_in}, Index.{records_at, tiles}};
ghost use Rattle.index.specs.{inner.Own.{is_word, is_at, stands_from, lists_stand, is_empty_from, compared_of, Counted, rest_of, own_with}, Own.{is_index_of}};
ghost use Rattle.table.specs.inner.Agreeing.{Agrees};

use crate::build::RECORDS_AT;
use crate::entries::{next_row, record_of};
use crate::lists::is_met_in;
use crate::tied::{keeps, wide};
use crate::tiles::{Tile, tile_at};
use crate::words::stand;
use border::place::FixedLat;
use header::header::{Head, head_of};
use numbers::fault::Fault;
use numbers::refusal::Refusal;
use table::find::is_precision;
use table::rows::{after, start_at};

// Whether a number stands at a place.
fn is_number(index: &[u32], at: usize, number: usize) -> bool
    ensures { result ≡ is_word index.now at number }
{
    at < index.len() && wide(index[at]) == number
}

// The whole table is read, as building reads it, so that a table that can't be indexed is told before words that differ. The answer: how many rows it has.
fn same_table(file: &[u8], head: Head, index: &[u32]) -> Result<usize, Refusal>
    ensures { Agrees Counted (compared_of file.now head index.now) result }
{
    let sections = head.sections;
    let end = sections.metadata as usize;
    let mut at = start_at(sections.table as usize);
    let mut floor = FixedLat(-2147483648);
    let mut same = true;
    let mut n = 0;
    // Stays a `while`: the step is the cursor's.
    while at.place < end {
        let row = next_row(file, head, at, floor)?;
        let bounds = row.bounds;
        same = same && stand(index, RECORDS_AT + 7 * n, &record_of(row));
        floor = bounds.min_lat;
        at = after(row);
        n += 1;
    }
    if !same {
        return Err(Fault::OtherIndex.alone());
    }
    Ok(n)
}

// The answer: the place behind the words.
fn same_list(index: &[u32], tile: Tile, n: usize, from: usize) -> Result<usize, Refusal>
    requires { (n < 2 ^ 32) × (records_at + 7 * n ≤ length index.now) × («from» < 2 ^ 50) }
    ensures { result ≡ stands_from index.now «from» (list_in index.now tile n 0) }
{
    let mut at = from;
    for k in 0..n {
        if is_met_in(index, tile, k) {
            if !is_number(index, at, k) {
                return Err(Fault::OtherIndex.alone());
            }
            at += 1;
        }
    }
    Ok(at)
}

fn same_lists(index: &[u32], precision: u8, n: usize, from: usize) -> Result<usize, Refusal>
    requires { (n < 2 ^ 32) × (records_at + 7 * n ≤ length index.now) × («from» < 2 ^ 40) × (1 ≤ precision) × (precision ≤ 32) }
    ensures { result ≡ lists_stand index.now 3 «from» (lists_in index.now precision n tiles 0) }
{
    let mut at = from;
    for t in 0..2048usize {
        if !is_number(index, 3 + t, at) {
            return Err(Fault::OtherIndex.alone());
        }
        let tile = tile_at(precision, t as u64);
        at = same_list(index, tile, n, at)?;
    }
    if !is_number(index, 2051, at) {
        return Err(Fault::OtherIndex.alone());
    }
    Ok(at)
}

pub fn is_empty_from(index: &[u32], from: usize) -> bool
    ensures { result ≡ is_empty_from index.now «from» }
{
    let mut at = from;
    while at < index.len() {
        if !is_number(index, at, 0) {
            return false;
        }
        at += 1;
    }
    true
}

fn same_head(index: &[u32], length: usize, size: usize, n: usize) -> bool
    ensures { result ≡ is_at index.now 0 (length ∷ size ∷ n ∷ []) }
{
    is_number(index, 0, length) && is_number(index, 1, size) && is_number(index, 2, n)
}

// All but the records, which were compared. The answer: how many words are used.
fn same_rest(
    file: &[u8],
    size: usize,
    precision: u8,
    index: &[u32],
    n: usize,
) -> Result<usize, Refusal>
    requires { (n < 2 ^ 32) × (size < 2 ^ 32) × (1 ≤ precision) × (precision ≤ 32) }
    ensures { result ≡ rest_of file.now size precision index.now n }
{
    let kept = RECORDS_AT + 7 * n;
    let begin = kept + (size + 3) / 4;
    if index.len() < begin {
        return Err(Fault::OtherIndex.alone());
    }
    if !same_head(index, file.len(), size, n) {
        return Err(Fault::OtherIndex.alone());
    }
    if !keeps(file, size, index, kept) {
        return Err(Fault::OtherIndex.alone());
    }
    let used = same_lists(index, precision, n, begin)?;
    if 0xffff_ffff < used {
        return Err(Fault::OtherIndex.alone());
    }
    if !is_empty_from(index, used) {
        return Err(Fault::OtherIndex.alone());
    }
    Ok(used)
}

// In a file whose header was read: 16, 34, 36.
fn own_with(file: &[u8], head: Head, index: &[u32]) -> Result<(), Refusal>
    ensures { result ≡ own_with file.now head index.now }
{
    let preamble = head.preamble;
    let sections = head.sections;
    let precision = preamble.precision;
    let size = sections.metadata;
    if !is_precision(precision) {
        return Err(Fault::BadPrecision.alone());
    }
    let n = same_table(file, head, index)?;
    same_rest(file, size as usize, precision, index, n)?;
    Ok(())
}

// Whether the words are those that `build_index`, lent as many, leaves for this file. Refused: opening's numbers, 16, 34, and 36 last.
// Stays apart: two lines, over another definition than `index_tied`.
pub fn is_index(file: &[u8], index: &[u32]) -> Result<(), Refusal>
    ensures { result ≡ is_index_of file.now index.now }
{
    let head = head_of(file)?;
    own_with(file, head, index)
}
