// The notes of a builder's yards. A caller may lend any notes: what is promised of new ones holds where the old ones were right.
// Stays, point 6: C lends these lists, longer than what stands in them, and keeps chains and groups between the calls.
ghost use mathlib.Core.{List.{map, ◌++◌}, Path.{◌≡◌}};
ghost use Rattle.std.specs.Prelude.{◌+◌, ◌-◌, ◌*◌, ◌^◌, ◌≤◌, ◌<◌};
ghost use lib.{ListN.{length, get_or, drop}, Seq.{sets}};
ghost use Rattle.builder.specs.Yards.{sum_of};
ghost use Rattle.builder.specs.Grouping.{Items.{starts_from}, Keys.{numbers_from}};
ghost use Rattle.numbers.specs.Lists.{zeros};
ghost use Rattle.notes.specs.inner.Noted.Noting.{EntersAll, NotesOne, NotesAll};

use crate::chains::enter::enter;
use crate::chains::find::find;
use crate::chains::texts::Texts;
use header::zero::zero_words;

// The values of a yard are entered, field by field.
fn enter_values(names: usize, yard: usize, texts: Texts, chains: &mut [u32])
    requires { (names ≤ 255) × (yard < 4096) × ((yard + 1) * names < length texts.starts.now) × (4096 + (yard + 1) * names ≤ length chains.old) }
    ensures { EntersAll names yard texts.entry.starts.now texts.entry.bytes.now chains.old chains.new names }
{
    let first = yard * names;
    for field in 0..names {
        enter(texts, 1, chains, first + field);
    }
}

// One more yard: where no yard before it has its values, it and they are entered.
pub fn note_yard(
    names: usize,
    yard: usize,
    starts: &[u32],
    texts: &[u8],
    chains: &mut [u32],
    groups: &mut [u32],
)
    requires { (names ≤ 255) × (yard < 4096) × ((yard + 1) * names < length starts.now) × (4096 + (yard + 1) * names ≤ length chains.old) × (4096 + yard < length groups.old) }
    ensures { NotesOne names yard starts.now texts.now chains.old groups.old chains.new groups.new }
{
    let texts = Texts {
        starts,
        bytes: texts,
    };
    if find(texts, names, groups, yard).is_some() {
        return;
    }
    enter(texts, names, groups, yard);
    enter_values(names, yard, texts, chains);
}

// All yards, from nothing.
pub fn note_yards(
    names: usize,
    count: usize,
    starts: &[u32],
    texts: &[u8],
    chains: &mut [u32],
    groups: &mut [u32],
)
    requires { (names ≤ 255) × (count ≤ 4096) × (count * names < length starts.now) × (4096 + count * names ≤ length chains.old) × (4096 + count ≤ length groups.old) }
    ensures { NotesAll names count starts.now texts.now chains.new groups.new }
{
    zero_words(chains);
    zero_words(groups);
    for yard in 0..count {
        note_yard(names, yard, starts, texts, chains, groups);
    }
}

// Every second place, and zeros behind them.
pub fn gather(places: &[u32], begins: &mut [u32], count: usize)
    requires { (2 * count ≤ length places.now) × (count ≤ length begins.old) }
    ensures { begins.new ≡ map (λ i. get_or places.now (2 * i) 0) (numbers_from 0 count) ++ zeros (length begins.old - count) }
{
    zero_words(begins);
    for i in 0..count {
        begins[i] = places[2 * i];
    }
}

// Where more parts end, behind a place that tells where the first of them begins.
pub fn mark_more(sizes: &[u32], begin: u32, marks: &mut [u32], at: usize)
    requires { (at + length sizes.now < length marks.old) × (begin + sum_of sizes.now < 2 ^ 32) }
    ensures { marks.new ≡ sets marks.old (at + 1) (drop 1 (starts_from begin sizes.now)) }
{
    let mut end = begin;
    for (i, size) in sizes.iter().enumerate() {
        end += *size;
        marks[at + 1 + i] = end;
    }
}
