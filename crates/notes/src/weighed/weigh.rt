// The bytes of a new record, value by value. The lists may be forged: where they make no sense, nothing is sure.
// Stays, point 6: a chain is a list that C lends and keeps between the calls, longer than what stands in it.
ghost use mathlib.Core.{List.{List}, Path.{◌≡◌}};
ghost use Rattle.std.specs.Prelude.{ℕ, ◌+◌, ◌-◌, ◌*◌, ◌^◌, ◌≤◌, ◌<◌, length};
ghost use Rattle.builder.specs.Sharing.{same_text, is_in};
ghost use Rattle.builder.specs.Grouping.Items.{Inside, text_at, item_at};
ghost use Rattle.build.specs.Metadata.Kept.{fields_to};
ghost use Rattle.notes.specs.inner.Weighed.Weighing.{Noted, AtMost, Weighs, WeighsAs};

use crate::chains::find::{find, find_before};
use crate::chains::texts::{Texts, same_items};
use layout::records::size_of_varint;

// Whether one of the values from the first of a record on is the same as this one.
fn is_repeated(texts: Texts, first: usize, value: usize) -> bool
    requires { (value + 1 < length texts.starts.now) × (first ≤ value) }
    ensures { Inside texts.entry.starts.now texts.entry.bytes.now (value + 1) → result ≡ is_in same_text (text_at texts.entry.starts.now texts.entry.bytes.now value) (item_at texts.entry.starts.now texts.entry.bytes.now first (value - first)) }
{
    for i in first..value {
        if same_items(texts, value, i, 1) {
            return true;
        }
    }
    false
}

// A value's bytes in its record, where a word has so many; none where it may change another record.
fn weigh_value(
    word: usize,
    texts: Texts,
    chains: &[u32],
    first: usize,
    value: usize,
) -> Option<usize>
    requires { (word ≤ 10) × (value + 1 < length texts.starts.now) × (4096 + value ≤ length chains.now) × (first ≤ value) }
    ensures { Weighs word texts.entry.starts.now texts.entry.bytes.now chains.now first value result }
{
    let begin = texts.starts[value];
    let end = texts.starts[value + 1];
    if end < begin {
        return None;
    }
    let size = (end - begin) as usize;
    if size == 0 {
        return Some(1);
    }
    let Some(found) = find(texts, 1, chains, value) else {
        if is_repeated(texts, first, value) {
            return None;
        }
        let bytes = size_of_varint(size as u64) + size;
        return Some(bytes);
    };
    // Found once, it stands in another record, which would change. Stays a test: the edit found_once_as_word turns it.
    if find_before(texts, 1, chains, value, found).is_none() {
        return None;
    }
    Some(word)
}

// The bytes of the record of a yard behind so many, where a word has so many; none where another record may not stay as it is.
pub(crate) fn weigh(
    names: usize,
    count: usize,
    word: usize,
    texts: Texts,
    chains: &[u32],
) -> Option<usize>
    requires { (names ≤ 255) × (word ≤ 10) × ((count + 1) * names < length texts.starts.now) × (4096 + (count + 1) * names ≤ length chains.now) }
    ensures { AtMost (2 ^ 41) result × ((lengths : List ℕ) → Noted names count lengths texts.entry.starts.now texts.entry.bytes.now chains.now → WeighsAs (fields_to names lengths texts.entry.bytes.now count) word (item_at texts.entry.starts.now texts.entry.bytes.now (count * names) names) result) }
{
    let first = count * names;
    let mut bytes = 0;
    for i in 0..names {
        bytes += weigh_value(word, texts, chains, first, first + i)?;
    }
    Some(bytes)
}
