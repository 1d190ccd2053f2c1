// Words in order, of an item's hash and its number: equal items stand close together.
// Stays, point 6: texts stay where C lends them and are found by their starts: no heap holds strings or a map.
ghost use mathlib.Core.{Path.{◌≡◌}, List.{map}};
ghost use Rattle.std.specs.Prelude.{◌*◌, ◌^◌, ◌≤◌, length};
ghost use Rattle.builder.specs.Grouping.{Items.{Inside}, Keys.{key_word, numbers_from, Sorting}};

use crate::grouping::items::hash_item;
use layout::order::sort;

// The words, as the items come.
fn put_keys(starts: &[u32], texts: &[u8], width: usize, keys: &mut [u64])
    requires { Inside starts.now texts.now (length keys.old * width) × (length keys.old ≤ 2 ^ 32) }
    ensures { keys.new ≡ map (key_word starts.now texts.now width) (numbers_from 0 (length keys.old)) }
{
    for item in 0..keys.len() {
        let hash = hash_item(starts, texts, item * width, width);
        keys[item] = hash as u64 * 0x1_0000_0000 + item as u64;
    }
}

// The words in order; the second list, of at least as many, is zero afterwards.
pub fn sort_keys(starts: &[u32], texts: &[u8], width: usize, keys: &mut [u64], spare: &mut [u64])
    requires { Inside starts.now texts.now (length keys.old * width) × (length keys.old ≤ 2 ^ 32) × (length keys.old ≤ length spare.old) }
    ensures { Sorting starts.now texts.now width (length keys.old) spare.old keys.new spare.new }
{
    put_keys(starts, texts, width, keys);
    sort(keys, spare);
}
