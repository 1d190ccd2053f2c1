// An item is entered: it stands at the head of its chain, before those that stood there.
// Stays, point 6: a chain is a list that C lends and keeps between the calls.
ghost use mathlib.Core.{Bool.{Bool, true}, Path.{◌≡◌}};
ghost use Rattle.std.specs.Prelude.{ℕ, ◌+◌, ◌*◌, ◌^◌, ◌<◌, length};
ghost use Rattle.notes.specs.Chains.{Chains.{Chained, ItemsInside}, Entered.{bucket_of}};

use crate::chains::texts::{Texts, bucket_of};

pub(crate) fn enter(texts: Texts, width: usize, chain: &mut [u32], item: usize)
    requires { ((item + 1) * width < length texts.starts.now) × (4096 + item < length chain.old) × (item < 2 ^ 24) }
    ensures { (entered : ℕ → Bool) → ItemsInside texts.entry.starts.now texts.entry.bytes.now width item → Chained (bucket_of texts.entry.starts.now texts.entry.bytes.now width) entered item chain.old → entered item ≡ true → Chained (bucket_of texts.entry.starts.now texts.entry.bytes.now width) entered (item + 1) chain.new }
{
    let bucket = bucket_of(texts, width, item);
    chain[4096 + item] = chain[bucket];
    chain[bucket] = (item + 1) as u32;
}
