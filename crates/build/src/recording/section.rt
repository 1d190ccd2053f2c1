// From the values of all yards to the layout of the metadata section.
// Stays, point 6: C lends lengths and texts as two lists, and no heap holds strings.
ghost use Rattle.std.specs.Prelude.{length};
ghost use Rattle.builder.specs.Yards.{cut_by};
ghost use Rattle.layout.specs.inner.Layout.{Least};
ghost use Rattle.build.specs.Metadata.Kept.{Keeps};
ghost use Rattle.build.specs.inner.Recording.Recorded.{Short, Shares, Fields, Fielded, Laying, Recorded};

use crate::metadata::begins::place_records;
use crate::metadata::kept::{Sizes, keep_records};
use crate::metadata::words::mark_words;
use builder::grouping::items::mark_starts;
use builder::grouping::keys::sort_keys;
use layout::records::least_layout;

// The bytes of the records, and of the texts behind them.
#[derive(Clone, Copy)]
pub struct Layout {
    pub records: u32,
    pub remote: u32,
}

// The layout, and how many lengths and bytes the records have.
#[derive(Clone, Copy)]
pub struct Section {
    pub records: u32,
    pub remote: u32,
    pub lengths: usize,
    pub bytes: usize,
}

// The least length that fits, which is below 2^32.
// Stays by hand: it is no order; it takes the layout's answer.
fn least_length(inline: u32, words: &[u32]) -> u32
    requires { Short inline words.now }
    ensures { Least inline words.now result }
{
    match least_layout(inline as u64, words) {
        Some(records) => records as u32,
        None => 0,
    }
}

// The records that yards share.
fn share_records(
    names: usize,
    lengths: &[u32],
    texts: &[u8],
    starts: &mut [u32],
    keys: &mut [u64],
    spare: &mut [u64],
    places: &mut [u32],
    kept: &mut [u32],
    held: &mut [u8],
) -> Sizes
    requires { Shares names (length keys.old) lengths.now texts.now (length starts.old) (length spare.old) (length places.old) }
    ensures { Keeps names (length keys.old) lengths.now texts.now places.old places.new kept.old kept.new held.old held.new result.lengths result.bytes }
{
    mark_starts(lengths, starts);
    sort_keys(starts, texts, names, keys, spare);
    keep_records(names, lengths, texts, starts, keys, places, kept, held)
}

// The words of the records' fields, and their layout.
fn lay_fields(
    lengths: &[u32],
    texts: &[u8],
    starts: &mut [u32],
    keys: &mut [u64],
    spare: &mut [u64],
    words: &mut [u32],
) -> Layout
    requires { Fields lengths.now texts.now (length starts.old) (length keys.old) (length spare.old) (length words.old) }
    ensures { Fielded (cut_by lengths.now texts.now) words.new result.records result.remote }
{
    mark_starts(lengths, starts);
    sort_keys(starts, texts, 1, keys, spare);
    let sums = mark_words(lengths, texts, starts, keys, words);
    let records = least_length(sums.inline, &words[..lengths.len()]);
    Layout {
        records: records,
        remote: sums.remote,
    }
}

// The records, their words and lengths, and for each yard, in the first of its two places, where its record begins.
pub fn lay_records(
    names: usize,
    count: usize,
    lengths: &[u32],
    texts: &[u8],
    starts: &mut [u32],
    keys: &mut [u64],
    spare: &mut [u64],
    kept: &mut [u32],
    held: &mut [u8],
    words: &mut [u32],
    places: &mut [u32],
) -> Section
    requires { Laying names count lengths.now texts.now (length starts.old) (length keys.old) (length spare.old) (length kept.old) (length held.old) (length words.old) (length places.old) }
    ensures { Recorded names count lengths.now texts.now places.old kept.new held.new words.new places.new result.records result.remote result.lengths result.bytes }
{
    let all = lengths.len() + 1;
    let sizes = share_records(
        names,
        lengths,
        texts,
        &mut starts[..all],
        &mut keys[..count],
        spare,
        places,
        kept,
        held,
    );
    let n = sizes.lengths;
    let m = sizes.bytes;
    let end = n + 1;
    let laid = lay_fields(
        &kept[..n],
        &held[..m],
        &mut starts[..end],
        &mut keys[..n],
        spare,
        words,
    );
    mark_starts(lengths, &mut starts[..all]);
    place_records(
        names,
        laid.records,
        count,
        words,
        lengths,
        texts,
        &starts[..all],
        places,
    );
    Section {
        records: laid.records,
        remote: laid.remote,
        lengths: n,
        bytes: m,
    }
}
