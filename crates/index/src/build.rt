// Building an index: the whole table is gone through once, then each tile's list is written.
// Stays, point 5: any header is taken with any file, so a struct of `file, head` would hold no fact.
ghost use Rattle.std.specs.Prelude.{◌^◌, ◌<◌, ◌≡◌, [], ◌∷◌, length};
ghost use lib.Seq.{sets};
ghost use Rattle.index.specs.Index.{index_with, indexed, indexed_of};
ghost use Rattle.numbers.specs.Lists.{zeros};
ghost use Rattle.table.specs.inner.Agreeing.{Agrees};
ghost use Rattle.zones.specs.Fields.{Wrote};

use crate::entries::put_table;
use crate::kept::put_kept;
use crate::lists::put_lists;
use crate::words::put;
use header::header::{Head, head_of};
use header::zero::zero_words;
use numbers::fault::Fault;
use numbers::refusal::Refusal;
use table::find::is_precision;

// Where the records begin.
pub const RECORDS_AT: usize = 2052;

// Stays apart: three words; comparing them (own.rt) ends at the first difference.
fn put_head(index: &mut [u32], length: u32, size: u32, n: u32)
    ensures { index.new ≡ sets index.old 0 (length ∷ size ∷ n ∷ []) }
{
    put(index, 0, length);
    put(index, 1, size);
    put(index, 2, n);
}

// In words that are zero. The answer: how many words are used.
fn fill(file: &[u8], head: Head, index: &mut [u32]) -> Result<usize, Refusal>
    requires { (index.old ≡ zeros (length index.old)) × (length file.now < 2 ^ 32) }
    ensures { Agrees (Wrote (length index.old) index.new) (index_with file.now head (length index.old)) result }
{
    let preamble = head.preamble;
    let sections = head.sections;
    let precision = preamble.precision;
    if !is_precision(precision) {
        return Err(Fault::BadPrecision.alone());
    }
    let n = put_table(file, head, index)?;
    let size = sections.metadata;
    let begin = put_kept(file, size as usize, index, RECORDS_AT + 7 * n);
    if index.len() < begin {
        return Err(Fault::IndexFull.alone());
    }
    put_head(index, file.len() as u32, size, n as u32);
    let used = put_lists(index, precision, n, begin);
    if index.len() < used {
        return Err(Fault::IndexFull.alone());
    }
    if 0xffff_ffff < used {
        return Err(Fault::IndexFull.alone());
    }
    Ok(used)
}

// The index of a file goes into the lent words. The answer: how many words are used. Refused: opening's numbers, 16, 34, and 35 last; then every word is zero.
pub fn build_index(file: &[u8], index: &mut [u32]) -> Result<usize, Refusal>
    ensures { indexed result index.new ≡ indexed_of file.now (length index.old) }
{
    zero_words(index);
    let head = head_of(file)?;
    let built = fill(file, head, index);
    if built.is_err() {
        zero_words(index);
        return built;
    }
    built
}
