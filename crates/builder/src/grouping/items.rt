// Items: so many texts in a row, as they lie in a list. A text alone is an item of one, a record one of as many as there are names.
// Stays, point 6: texts stay where C lends them and are found by their starts: no heap holds strings or a map.
// Stays, point 4: an item is so many texts, found by their starts, so no derive and no `==` of slices serves.
ghost use Rattle.std.specs.Prelude.{◌≡◌, ◌+◌, ◌^◌, ◌<◌, ◌≤◌, length};
ghost use Rattle.builder.specs.{Sharing.{same_text, same_texts}, Yards.{sum_of}};
ghost use Rattle.builder.specs.Grouping.Items.{Inside, starts_from, text_at, item_at, hash_text, hash_texts};

use crate::grouping::texts::{hash_text, same_text};

// Where each text begins, and where the last one ends.
pub fn mark_starts(lengths: &[u32], starts: &mut [u32])
    requires { (length starts.old ≡ length lengths.now + 1) × (sum_of lengths.now < 2 ^ 32) }
    ensures { starts.new ≡ starts_from 0 lengths.now }
{
    let mut at = 0;
    for (i, length) in lengths.iter().enumerate() {
        starts[i] = at;
        at += *length;
    }
    starts[lengths.len()] = at;
}

// A text's hash, behind another one's.
fn hash_at(starts: &[u32], texts: &[u8], hash: u32, text: usize) -> u32
    requires { Inside starts.now texts.now (text + 1) }
    ensures { result ≡ hash_text hash (text_at starts.now texts.now text) }
{
    let begin = starts[text] as usize;
    let end = starts[text + 1] as usize;
    hash_text(hash, &texts[begin..end])
}

// An item's hash.
pub(crate) fn hash_item(starts: &[u32], texts: &[u8], at: usize, width: usize) -> u32
    requires { Inside starts.now texts.now (at + width) }
    ensures { result ≡ hash_texts 0 (item_at starts.now texts.now at width) }
{
    let mut hash = 0;
    for i in 0..width {
        hash = hash_at(starts, texts, hash, at + i);
    }
    hash
}

fn same_at(starts: &[u32], texts: &[u8], a: usize, b: usize) -> bool
    requires { Inside starts.now texts.now (a + 1) × Inside starts.now texts.now (b + 1) }
    ensures { result ≡ same_text (text_at starts.now texts.now a) (text_at starts.now texts.now b) }
{
    let begin = starts[a] as usize;
    let end = starts[a + 1] as usize;
    let from = starts[b] as usize;
    let to = starts[b + 1] as usize;
    same_text(&texts[begin..end], &texts[from..to])
}

// Two items are the same, text by text.
pub(crate) fn same_item(starts: &[u32], texts: &[u8], a: usize, b: usize, width: usize) -> bool
    requires { Inside starts.now texts.now (a + width) × Inside starts.now texts.now (b + width) }
    ensures { result ≡ same_texts (item_at starts.now texts.now a width) (item_at starts.now texts.now b width) }
{
    for i in 0..width {
        if !same_at(starts, texts, a + i, b + i) {
            return false;
        }
    }
    true
}
