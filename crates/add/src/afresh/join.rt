// A yard more by a fresh sum.
// Stays, point 6: C lends these lists, longer than what stands in them, and keeps the builder's and the notes' between the calls.
ghost use Rattle.std.specs.Prelude.{◌+◌, length};
ghost use Rattle.build.specs.Room.{work_of};
ghost use Rattle.add.specs.{inner.Growing.Joins.{Grew}, Growing.Notes.{notes_as, NotesRoom}};
ghost use Rattle.add.specs.inner.Afresh.Afresh.{Measuring, Lying};

use crate::afresh::measure::measure;
use crate::afresh::note::note_afresh;
use crate::growing::grow::Added;
use draft::held::state::Held;

// The texts end so then, and the data is so many bytes longer; the lists have the yard already. Lengths and texts are those of the values alone.
pub(crate) fn join_afresh(
    builder: Held,
    noted: usize,
    strings: usize,
    size: usize,
    boxes: &[i32],
    borders: &[u32],
    lengths: &[u32],
    texts: &[u8],
    marks: &mut [u32],
    chains: &mut [u32],
    groups: &mut [u32],
    begins: &mut [u32],
    starts: &mut [u32],
    keys: &mut [u64],
    spare: &mut [u64],
    kept: &mut [u32],
    held: &mut [u8],
    words: &mut [u32],
    places: &mut [u32],
) -> Added
    requires { Measuring builder size (length borders.now) (length lengths.now) (length texts.now) (work_of (length starts.old) (length keys.old) (length spare.old) (length kept.old) (length held.old) (length words.old) (length places.old) (length boxes.now))
        × NotesRoom builder.names (builder.yards + 1) (length marks.old) (length chains.old) (length groups.old) (length begins.old) }
    ensures { Lying builder size boxes.now borders.now lengths.now texts.now (λ yards drawn. Grew yards drawn builder strings noted
        (notes_as marks.old chains.old groups.old begins.old) (notes_as marks.new chains.new groups.new begins.new) result) }
{
    let measured = measure(
        builder, strings, size, boxes, borders, lengths, texts, starts, keys, spare, kept, held,
        words, places,
    );
    let changed = measured.changed;
    if changed.is_err() {
        return Added { changed, noted };
    }
    note_afresh(
        builder.names as usize,
        builder.yards + 1,
        lengths,
        texts,
        places,
        marks,
        chains,
        groups,
        begins,
    );
    Added {
        changed,
        noted: measured.records as usize + 1,
    }
}
