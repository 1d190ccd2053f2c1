// The words of the records' fields: 0 for one that is inline, else 1 + how far behind the records its text lies.
// Stays, point 6: C lends lengths and texts as two lists, and no heap holds strings.
ghost use mathlib.Core.{Path.{◌≡◌}, List.{[]}};
ghost use Rattle.std.specs.Prelude.{◌+◌, ◌^◌, ◌≤◌, ◌<◌, length, take, get_or};
ghost use Rattle.builder.specs.Yards.{cut_by};
ghost use Rattle.numbers.specs.Spelling.{varint_of};
ghost use Rattle.build.specs.inner.Metadata.Words.{word_in, remote_in, Marked, WordsTo, Wording, Added};

use builder::grouping::first::{first_of, is_twice};
use layout::records::size_of_varint;

// The bytes of the fields that are inline, and of the texts behind the records.
#[derive(Clone, Copy)]
pub struct Sums {
    pub inline: u32,
    pub remote: u32,
}

// The bytes of a text inline.
// Stays by hand: it is no conversion; it measures a text.
fn inlined_size(size: u32) -> u32
    requires { size + 10 < 2 ^ 32 }
    ensures { result ≡ length (varint_of size) + size }
{
    let digits = size_of_varint(size as u64) as u32;
    digits + size
}

// A field's word, by those of the fields before it and the bytes of the texts that they use.
fn word_of(
    lengths: &[u32],
    texts: &[u8],
    starts: &[u32],
    keys: &[u64],
    words: &[u32],
    remote: u32,
    field: usize,
) -> u32
    requires { Marked lengths.now texts.now starts.now keys.now × (field < length lengths.now) × WordsTo (cut_by lengths.now texts.now) words.now field × (remote ≡ remote_in (cut_by lengths.now texts.now) (take field (cut_by lengths.now texts.now))) × (remote + 1 < 2 ^ 32) }
    ensures { result ≡ word_in (cut_by lengths.now texts.now) (get_or (cut_by lengths.now texts.now) field []) }
{
    let first = first_of(starts, texts, 1, keys, field);
    if first != field {
        return words[first];
    }
    if lengths[field] == 0 {
        return 0;
    }
    if is_twice(starts, texts, keys, field) {
        return remote + 1;
    }
    0
}

// The sums with one field more.
fn with_field(sums: Sums, word: u32, size: u32) -> Sums
    requires { (sums.inline + sums.remote + size < 2 ^ 32) × (sums.remote + 1 < 2 ^ 32) }
    ensures { Added sums.inline sums.remote word size result.inline result.remote }
{
    if word == 0 {
        return Sums {
            inline: sums.inline + size,
            remote: sums.remote,
        };
    }
    if word == sums.remote + 1 {
        return Sums {
            inline: sums.inline,
            remote: sums.remote + size,
        };
    }
    sums
}

// The words of all fields.
pub(crate) fn mark_words(
    lengths: &[u32],
    texts: &[u8],
    starts: &[u32],
    keys: &[u64],
    words: &mut [u32],
) -> Sums
    requires { Marked lengths.now texts.now starts.now keys.now × (length lengths.now ≤ length words.old) }
    ensures { Wording lengths.now texts.now words.new result.inline result.remote }
{
    let mut sums = Sums {
        inline: 0,
        remote: 0,
    };
    for (i, length) in lengths.iter().enumerate() {
        let word = word_of(lengths, texts, starts, keys, words, sums.remote, i);
        words[i] = word;
        sums = with_field(sums, word, inlined_size(*length));
    }
    sums
}
