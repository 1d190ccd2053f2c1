// The last entered item that is the same as one, and the one before it. A link that does not go back ends a walk: a chain may be forged.
// Stays, point 6: a chain is a list that C lends and keeps between the calls.
ghost use mathlib.Core.{Bool.{Bool}, Path.{◌≡◌}};
ghost use Rattle.std.specs.Prelude.{ℕ, ◌+◌, ◌*◌, ◌≤◌, ◌<◌, length};
ghost use Rattle.notes.specs.Chains.{Chains.{last_with, Chained, meets, word_of, ItemsInside}, Entered.{bucket_of, Walked}};

use crate::chains::texts::{Texts, bucket_of, same_items};

// The first along a chain, from this place on, that is the same. A place is a word of the chain, which C keeps: one more than the item it means, 0 for none.
// Stays a number in the chain alone: C keeps it between calls; what is found is an Option.
fn find_from(texts: Texts, width: usize, chain: &[u32], item: usize, from: usize) -> Option<usize>
    requires { ((item + 1) * width < length texts.starts.now) × (4096 + item ≤ length chain.now) }
    ensures { Walked texts.entry.starts.now texts.entry.bytes.now width chain.now item from (word_of result) }
{
    if item < from {
        return None;
    }
    // Stays a loop: the next place is in the chain.
    let mut at = from;
    while 0 < at {
        let other = at - 1;
        if same_items(texts, item * width, other * width, width) {
            return Some(other);
        }
        let next = chain[4096 + other] as usize;
        if other < next {
            return None;
        }
        at = next;
    }
    None
}

// The last entered item that is the same.
pub(crate) fn find(texts: Texts, width: usize, chain: &[u32], item: usize) -> Option<usize>
    requires { ((item + 1) * width < length texts.starts.now) × (4096 + item ≤ length chain.now) }
    ensures { (word_of result ≤ item) × ((entered : ℕ → Bool) (count : ℕ) → ItemsInside texts.entry.starts.now texts.entry.bytes.now width item → Chained (bucket_of texts.entry.starts.now texts.entry.bytes.now width) entered count chain.now → count ≤ item → word_of result ≡ last_with (meets texts.entry.starts.now texts.entry.bytes.now width entered item) count) }
{
    let bucket = bucket_of(texts, width, item);
    find_from(texts, width, chain, item, chain[bucket] as usize)
}

// The one before a found one.
pub(crate) fn find_before(
    texts: Texts,
    width: usize,
    chain: &[u32],
    item: usize,
    found: usize,
) -> Option<usize>
    requires { ((item + 1) * width < length texts.starts.now) × (4096 + item ≤ length chain.now) × (found < item) }
    ensures { (word_of result ≤ item) × ((entered : ℕ → Bool) (count : ℕ) → ItemsInside texts.entry.starts.now texts.entry.bytes.now width item → Chained (bucket_of texts.entry.starts.now texts.entry.bytes.now width) entered count chain.now → count ≤ item → found + 1 ≡ last_with (meets texts.entry.starts.now texts.entry.bytes.now width entered item) count → word_of result ≡ last_with (meets texts.entry.starts.now texts.entry.bytes.now width entered item) found) }
{
    find_from(texts, width, chain, item, chain[4096 + found] as usize)
}
