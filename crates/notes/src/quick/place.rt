// Where the record of a yard more begins. The notes may be forged: where they make no sense, nothing is sure.
// Stays, point 6: C lends these lists, longer than what stands in them, and keeps chains and groups between the calls.
ghost use mathlib.Core.{Bool.{false}, List.{List, map}, Path.{◌≡◌}};
ghost use Rattle.std.specs.Prelude.{ℕ, ◌+◌, ◌*◌, ◌^◌, ◌≤◌, ◌<◌, length};
ghost use Rattle.builder.specs.{Sharing.{same_texts, is_in}, Yards.{Yard}};
ghost use Rattle.notes.specs.inner.Quick.Placed.{Behind, Beside, Places, AddsAtMost};

use crate::chains::find::find;
use crate::chains::texts::Texts;
use crate::weighed::weigh::weigh;
use layout::records::size_of_varint;

// What a yard's record adds to the records, and where it begins.
#[derive(Clone, Copy)]
pub(crate) struct Placing {
    pub by: usize,
    pub begin: u32,
}

// A record of its own, behind the others; none where it may change another record, or the length of a word.
fn place_own(
    names: usize,
    count: usize,
    records: usize,
    remote: usize,
    texts: Texts,
    chains: &[u32],
) -> Option<Placing>
    requires { (names ≤ 255) × (records ≤ 2 ^ 30) × (remote ≤ 2 ^ 30) × ((count + 1) * names < length texts.starts.now) × (4096 + (count + 1) * names ≤ length chains.now) }
    ensures { AddsAtMost (2 ^ 41) result × ((yards : List Yard) (y : Yard) (lengths : List ℕ) → Behind yards y names count records remote lengths texts.entry.starts.now texts.entry.bytes.now chains.now → is_in same_texts y.values (map (λ x. x.values) yards) ≡ false → Places yards y result) }
{
    let word = size_of_varint((256 + records) as u64);
    let by = weigh(names, count, word, texts, chains)?;
    // The longest word, which means the last byte behind the records.
    let longest = size_of_varint((255 + records + by + remote) as u64);
    if longest != word {
        return None;
    }
    Some(Placing {
        by,
        begin: records as u32,
    })
}

// The record that it shares, or one of its own; none where that is not sure.
pub(crate) fn place_record(
    names: usize,
    count: usize,
    records: usize,
    remote: usize,
    texts: Texts,
    chains: &[u32],
    groups: &[u32],
    begins: &[u32],
) -> Option<Placing>
    requires { (names ≤ 255) × (records ≤ 2 ^ 30) × (remote ≤ 2 ^ 30) × ((count + 1) * names < length texts.starts.now) × (4096 + (count + 1) * names ≤ length chains.now) × (4096 + count ≤ length groups.now) × (count ≤ length begins.now) }
    ensures { AddsAtMost (2 ^ 41) result × ((yards : List Yard) (y : Yard) (lengths : List ℕ) → Beside yards y names count records remote lengths texts.entry.starts.now texts.entry.bytes.now chains.now groups.now begins.now → Places yards y result) }
{
    match find(texts, names, groups, count) {
        Some(other) => Some(Placing {
            by: 0,
            begin: begins[other],
        }),
        None => place_own(names, count, records, remote, texts, chains),
    }
}
