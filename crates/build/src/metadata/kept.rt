// The records: yards with equal values share one. Their lengths and texts are closed up, in order of arrival.
// Stays, point 6: C lends lengths and texts as two lists, and no heap holds strings.
ghost use mathlib.Core.{Path.{◌≡◌}, List.{[], ◌∷◌}};
ghost use Rattle.std.specs.Prelude.{◌+◌, ◌*◌, ◌^◌, ◌≤◌, ◌<◌, length, set};
ghost use Rattle.writer.specs.inner.Stored.{Stored};
ghost use Rattle.builder.specs.Yards.{sum_of};
ghost use Rattle.builder.specs.Grouping.{Items.{starts_from}, Keys.{keys_of}};
ghost use Rattle.build.specs.Metadata.Kept.{Keeps};

use builder::grouping::first::first_of;
use builder::put::put_bytes;

// How many lengths and bytes the records have.
#[derive(Clone, Copy)]
pub struct Sizes {
    pub lengths: usize,
    pub bytes: usize,
}

fn put_word(list: &mut [u32], place: usize, word: u32) -> usize
    requires { place < 2 ^ 63 }
    ensures { Stored list.old place (word ∷ []) list.new result }
{
    if place < list.len() {
        list[place] = word;
        return place + 1;
    }
    place + 1
}

// Words, one after another; what does not fit is counted and left out.
pub fn put_words(list: &mut [u32], place: usize, words: &[u32]) -> usize
    requires { place + length words.now < 2 ^ 62 }
    ensures { Stored list.old place words.now list.new result }
{
    let mut next = place;
    for word in words {
        next = put_word(list, next, *word);
    }
    next
}

// The records' lengths and texts, and for each yard, in the first of its two places, the first yard with the same values.
pub(crate) fn keep_records(
    names: usize,
    lengths: &[u32],
    texts: &[u8],
    starts: &[u32],
    keys: &[u64],
    places: &mut [u32],
    kept: &mut [u32],
    held: &mut [u8],
) -> Sizes
    requires { (starts.now ≡ starts_from 0 lengths.now) × (sum_of lengths.now ≤ length texts.now) × (length lengths.now ≡ length keys.now * names) × (keys.now ≡ keys_of starts.now texts.now names (length keys.now)) × (length keys.now ≤ 4096) × (2 * length keys.now ≤ length places.old) × (length texts.now < 2 ^ 32) × (length lengths.now < 2 ^ 32) }
    ensures { Keeps names (length keys.now) lengths.now texts.now places.old places.new kept.old kept.new held.old held.new result.lengths result.bytes }
{
    let mut sums = Sizes {
        lengths: 0,
        bytes: 0,
    };
    for here in 0..keys.len() {
        let first = first_of(starts, texts, names, keys, here);
        places[2 * here] = first as u32;
        if first == here {
            let at = here * names;
            let to = at + names;
            let begin = starts[at] as usize;
            let end = starts[to] as usize;
            let behind = put_words(kept, sums.lengths, &lengths[at..to]);
            let next = put_bytes(held, sums.bytes, &texts[begin..end]);
            sums = Sizes {
                lengths: behind,
                bytes: next,
            };
        }
    }
    sums
}
