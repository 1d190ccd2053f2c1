// A checked yard, its border drawn, joined to a builder whose lists have a place for it.
// Stays, point 6: C lends these lists, longer than what stands in them, and keeps the builder's and the notes' between the calls.
ghost use Rattle.std.specs.Prelude.{◌≡◌, ◌+◌, length};
ghost use Rattle.build.specs.Room.{work_of};
ghost use Rattle.add.specs.Growing.Notes.{notes_as};
ghost use Rattle.draft.specs.Held.State.{lists_as, works_as};
ghost use Rattle.add.specs.inner.Offered.Puts.{Placed};
ghost use Rattle.add.specs.{inner.Joining.Joins.{Measuring, Joins}, Joining.Joins.{Rests}};

use crate::growing::grow::Added;
use crate::joining::settle::settle;
use crate::offered::offer::Offer;
use crate::offered::put::{put_yard, take_back};
use draft::held::state::Held;

// The texts end so then; on a refusal every list is as it was.
pub(crate) fn join(
    builder: Held,
    noted: usize,
    strings: usize,
    yard: Offer,
    border: &[u8],
    boxes: &mut [i32],
    borders: &mut [u32],
    lengths: &mut [u32],
    texts: &mut [u8],
    bytes: &mut [u8],
    marks: &mut [u32],
    chains: &mut [u32],
    groups: &mut [u32],
    begins: &mut [u32],
    starts: &mut [u32],
    keys: &mut [u64],
    spare: &mut [u64],
    kept: &mut [u32],
    held: &mut [u8],
    words: &mut [u32],
    places: &mut [u32],
) -> Added
    requires { (strings ≡ builder.strings + length yard.values.now) × Placed builder (length yard.sizes.now) (length yard.values.now) (length border.now) (lists_as boxes.old borders.old lengths.old texts.old bytes.old)
        × Measuring builder yard.sizes.now strings (length border.now) (length borders.old) (length lengths.old) (length texts.old) (work_of (length starts.old) (length keys.old) (length spare.old) (length kept.old) (length held.old) (length words.old) (length places.old) (length boxes.old))
        (length marks.old) (length chains.old) (length groups.old) (length begins.old) }
    ensures { Joins builder noted yard.entry.lats.now yard.entry.lons.now yard.entry.sizes.now yard.entry.values.now border.now (lists_as boxes.old borders.old lengths.old texts.old bytes.old) (lists_as boxes.new borders.new lengths.new texts.new bytes.new)
        (notes_as marks.old chains.old groups.old begins.old) (notes_as marks.new chains.new groups.new begins.new) result
        × Rests (works_as starts.old keys.old spare.old kept.old held.old words.old places.old)
        (works_as starts.new keys.new spare.new kept.new held.new words.new places.new) }
{
    put_yard(builder, yard, border, boxes, borders, lengths, texts, bytes);
    let added = settle(
        builder,
        noted,
        strings,
        border.len(),
        yard.sizes,
        boxes,
        borders,
        lengths,
        texts,
        marks,
        chains,
        groups,
        begins,
        starts,
        keys,
        spare,
        kept,
        held,
        words,
        places,
    );
    if added.changed.is_err() {
        take_back(builder, boxes, borders, lengths, texts, bytes);
    }
    added
}
