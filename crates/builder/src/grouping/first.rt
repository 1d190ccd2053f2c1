// The first of equal items, and whether there are two, among those that have one hash.
// Stays, point 6: texts stay where C lends them and are found by their starts: no heap holds strings or a map.
ghost use mathlib.Core.{Path.{◌≡◌}, List.{map}};
ghost use Rattle.std.specs.Prelude.{◌*◌, ◌^◌, ◌<◌, ◌≤◌};
ghost use lib.{Dec.{leb}, ListN.{length, drop}};
ghost use Rattle.builder.specs.Sharing.{first_with, times_in};
ghost use Rattle.layout.specs.Order.{key_of, Rising};
ghost use Rattle.builder.specs.Grouping.{Items.{Inside}, Keys.{item_of, hash_of, alike, keys_of, first_of, numbers_from, Lower, Members}};

use crate::grouping::items::{hash_item, same_item};
use layout::order::key_of;

// Stays by hand: it is a word of the definitions: the lower half of a word is an item.
fn item_of(word: u64) -> usize
    ensures { result ≡ item_of word }
{
    (word % 0x1_0000_0000) as usize
}

// Where a key begins, or would.
fn run_of(keys: &[u64], key: u64) -> usize
    requires { Rising key_of keys.now }
    ensures { Lower keys.now key result }
{
    keys.partition_point(|word| key_of(*word) < key)
}

// Whether an item and that of the ith word are the same.
fn is_alike(
    starts: &[u32],
    texts: &[u8],
    width: usize,
    keys: &[u64],
    item: usize,
    other: usize,
) -> bool
    requires { Inside starts.now texts.now (length keys.now * width) × (item < length keys.now) × (other < length keys.now) }
    ensures { result ≡ alike starts.now texts.now width item other }
{
    same_item(starts, texts, item * width, other * width, width)
}

// The first item from a place on that is the same.
fn first_from(
    starts: &[u32],
    texts: &[u8],
    width: usize,
    keys: &[u64],
    run: usize,
    item: usize,
) -> usize
    requires { Members starts.now texts.now width keys.now × (item < length keys.now) × (run ≤ length keys.now) }
    ensures { result ≡ first_with (alike starts.now texts.now width item) item (map item_of (drop run keys.now)) }
{
    for word in &keys[run..] {
        let other = item_of(*word);
        if is_alike(starts, texts, width, keys, item, other) {
            return other;
        }
    }
    item
}

// The first item of all that is the same.
pub fn first_of(starts: &[u32], texts: &[u8], width: usize, keys: &[u64], item: usize) -> usize
    requires { Inside starts.now texts.now (length keys.now * width) × (keys.now ≡ keys_of starts.now texts.now width (length keys.now)) × (length keys.now ≤ 2 ^ 32) × (item < length keys.now) }
    ensures { result ≡ first_of starts.now texts.now width (length keys.now) item }
{
    let key = hash_item(starts, texts, item * width, width) as u64;
    let run = run_of(keys, key);
    first_from(starts, texts, width, keys, run, item)
}

// Whether two from a place on are the same, among those that have this key.
fn twice_from(starts: &[u32], texts: &[u8], keys: &[u64], run: usize, key: u64, item: usize) -> bool
    requires { Members starts.now texts.now 1 keys.now × Rising key_of keys.now × (item < length keys.now) × Lower keys.now key run × (key ≡ hash_of starts.now texts.now 1 item) }
    ensures { result ≡ leb 2 (times_in (alike starts.now texts.now 1) item (map item_of (drop run keys.now))) }
{
    let mut found: u64 = 0;
    for word in &keys[run..] {
        if key_of(*word) != key {
            return false;
        }
        if is_alike(starts, texts, 1, keys, item, item_of(*word)) {
            found += 1;
            if found == 2 {
                return true;
            }
        }
    }
    false
}

// Whether a text is found twice.
pub fn is_twice(starts: &[u32], texts: &[u8], keys: &[u64], item: usize) -> bool
    requires { Inside starts.now texts.now (length keys.now * 1) × (keys.now ≡ keys_of starts.now texts.now 1 (length keys.now)) × (length keys.now ≤ 2 ^ 32) × (item < length keys.now) }
    ensures { result ≡ leb 2 (times_in (alike starts.now texts.now 1) item (numbers_from 0 (length keys.now))) }
{
    let key = hash_item(starts, texts, item, 1) as u64;
    let run = run_of(keys, key);
    twice_from(starts, texts, keys, run, key, item)
}
