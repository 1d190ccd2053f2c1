// A builder's yards noted afresh.
// Stays, point 6: C lends these lists, longer than what stands in them, and keeps the builder's and the notes' between the calls.
ghost use Rattle.std.specs.Prelude.{List, length};
ghost use Rattle.builder.specs.Yards.{Yard};
ghost use Rattle.add.specs.Growing.Notes.{notes_as, NotedLists};
ghost use Rattle.add.specs.inner.Afresh.Afresh.{Notable, Values};

use builder::grouping::items::mark_starts;
use draft::summed::sums::is_sum;
use header::zero::zero_words;
use notes::noted::note::{gather, note_yards};

// From the lengths and texts of all values, and from where each yard's record begins, at every second place.
pub(crate) fn note_afresh(
    names: usize,
    count: usize,
    lengths: &[u32],
    texts: &[u8],
    places: &[u32],
    marks: &mut [u32],
    chains: &mut [u32],
    groups: &mut [u32],
    begins: &mut [u32],
)
    requires { Notable names count (length lengths.now) (length places.now) (length marks.old) (length chains.old) (length groups.old) (length begins.old) }
    ensures { (yards : List Yard) → Values yards names count lengths.now texts.now places.now
        → NotedLists names yards (notes_as marks.new chains.new groups.new begins.new) }
{
    // So many texts of 255 bytes are shorter.
    if 0x2000_0000 < texts.len() {
        return;
    }
    if !is_sum(lengths, texts.len()) {
        return;
    }
    let end = lengths.len() + 1;
    zero_words(marks);
    mark_starts(lengths, &mut marks[..end]);
    note_yards(names, count, &marks[..end], texts, chains, groups);
    gather(places, begins, count);
}
