// Items by where their texts begin, in lists that may be wrong: a text that does not lie inside the bytes is the same as none.
// Stays, point 4: the starts may be forged, so each is looked at before two texts are held against one another.
ghost use Rattle.std.specs.Prelude.{◌≡◌, ◌+◌, ◌*◌, ◌<◌, length};
ghost use Rattle.builder.specs.Sharing.{same_text, same_texts};
ghost use Rattle.builder.specs.Grouping.Items.{Inside, text_at, item_at, hash_text, hash_texts};
ghost use Rattle.notes.specs.Chains.{Chains.{ItemsInside}, Entered.{bucket_of}};

use builder::grouping::texts::{hash_text, same_text};

// Texts one behind the other, by where each begins.
#[derive(Clone, Copy)]
pub struct Texts<'a> {
    pub starts: &'a [u32],
    pub bytes: &'a [u8],
}

// A text's hash, behind another one's.
fn hash_one(texts: Texts, hash: u32, text: usize) -> u32
    requires { text + 1 < length texts.starts.now }
    ensures { Inside texts.entry.starts.now texts.entry.bytes.now (text + 1) → result ≡ hash_text hash (text_at texts.entry.starts.now texts.entry.bytes.now text) }
{
    let begin = texts.starts[text] as usize;
    let end = texts.starts[text + 1] as usize;
    if end < begin {
        return hash;
    }
    if texts.bytes.len() < end {
        return hash;
    }
    hash_text(hash, &texts.bytes[begin..end])
}

// Not builder's: these lists may be forged (docs/DECISIONS.md), and its functions ask that they are right.
// An item's hash.
pub(crate) fn hash_item(texts: Texts, at: usize, width: usize) -> u32
    requires { at + width < length texts.starts.now }
    ensures { Inside texts.entry.starts.now texts.entry.bytes.now (at + width) → result ≡ hash_texts 0 (item_at texts.entry.starts.now texts.entry.bytes.now at width) }
{
    let mut hash = 0;
    for i in 0..width {
        hash = hash_one(texts, hash, at + i);
    }
    hash
}

// Where an item's chain begins.
pub(crate) fn bucket_of(texts: Texts, width: usize, item: usize) -> usize
    requires { (item + 1) * width < length texts.starts.now }
    ensures { (result < 4096) × (ItemsInside texts.entry.starts.now texts.entry.bytes.now width item → result ≡ bucket_of texts.entry.starts.now texts.entry.bytes.now width item) }
{
    let hash = hash_item(texts, item * width, width);
    (hash % 4096) as usize
}

fn same_one(texts: Texts, a: usize, b: usize) -> bool
    requires { (a + 1 < length texts.starts.now) × (b + 1 < length texts.starts.now) }
    ensures { Inside texts.entry.starts.now texts.entry.bytes.now (a + 1) → Inside texts.entry.starts.now texts.entry.bytes.now (b + 1) → result ≡ same_text (text_at texts.entry.starts.now texts.entry.bytes.now a) (text_at texts.entry.starts.now texts.entry.bytes.now b) }
{
    let begin = texts.starts[a] as usize;
    let end = texts.starts[a + 1] as usize;
    let from = texts.starts[b] as usize;
    let to = texts.starts[b + 1] as usize;
    if end < begin {
        return false;
    }
    if texts.bytes.len() < end {
        return false;
    }
    if to < from {
        return false;
    }
    if texts.bytes.len() < to {
        return false;
    }
    same_text(&texts.bytes[begin..end], &texts.bytes[from..to])
}

// Two items are the same, text by text.
pub(crate) fn same_items(texts: Texts, a: usize, b: usize, width: usize) -> bool
    requires { (a + width < length texts.starts.now) × (b + width < length texts.starts.now) }
    ensures { Inside texts.entry.starts.now texts.entry.bytes.now (a + width) → Inside texts.entry.starts.now texts.entry.bytes.now (b + width) → result ≡ same_texts (item_at texts.entry.starts.now texts.entry.bytes.now a width) (item_at texts.entry.starts.now texts.entry.bytes.now b width) }
{
    for i in 0..width {
        if !same_one(texts, a + i, b + i) {
            return false;
        }
    }
    true
}
