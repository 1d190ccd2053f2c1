// A yard more in a builder.
// Stays, point 6: C lends these lists, longer than what stands in them, and keeps its builder's and its notes' between the calls.
ghost use mathlib.Core.{List.{◌++◌}, Path.{◌≡◌}};
ghost use Rattle.std.specs.Prelude.{◌+◌, ◌≤◌, min, length, drop};
ghost use Rattle.builder.specs.inner.Drawing.Section.{LentFor};
ghost use Rattle.add.specs.Growing.Notes.{notes_as};
ghost use Rattle.draft.specs.Held.State.{lists_as, rooms_of, works_as};
ghost use Rattle.add.specs.Joining.Joins.{Rests};
ghost use Rattle.numbers.specs.Lists.{zeros};
ghost use Rattle.add.specs.Offered.{Offer.{offer_of}, Offers.{offered_as}};
ghost use Rattle.add.specs.Adding.Adds.{Adds, note_rooms, used_out};

use crate::adding::room::{NoteRooms, has_place};
use crate::growing::grow::Added;
use crate::joining::join::join;
use crate::offered::draw::{lent_to, take_offer};
use crate::offered::offer::Offer;
use build::room::sum_of;
use draft::held::room::{Rooms, stands};
use draft::held::state::Held;
use header::field::zero;
use numbers::fault::Fault;

// Where a part of a list ends.
fn end_of(start: usize, size: usize, most: usize) -> usize
    requires { start + size ≤ most }
    ensures { result ≡ start + size }
{
    start + size
}

// The front of a list goes.
fn clear_front(out: &mut [u8], size: usize)
    requires { size ≤ length out.old }
    ensures { out.new ≡ zeros size ++ drop size out.old }
{
    zero(&mut out[..size]);
}

// The border is drawn in what is lent of an output of this length.
fn add_kept(
    builder: Held,
    noted: usize,
    offer: Offer,
    boxes: &mut [i32],
    borders: &mut [u32],
    lengths: &mut [u32],
    texts: &mut [u8],
    bytes: &mut [u8],
    marks: &mut [u32],
    chains: &mut [u32],
    groups: &mut [u32],
    begins: &mut [u32],
    starts: &mut [u32],
    keys: &mut [u64],
    spare: &mut [u64],
    kept: &mut [u32],
    held: &mut [u8],
    words: &mut [u32],
    places: &mut [u32],
    wide: usize,
    out: &mut [u8],
) -> Added
    requires { LentFor (min (length offer.lats.now) 65536) wide (length out.old) }
    ensures { let own = lists_as boxes.old borders.old lengths.old texts.old bytes.old in
        let work = works_as starts.old keys.old spare.old kept.old held.old words.old places.old in
        let notes = notes_as marks.old chains.old groups.old begins.old in
        Adds builder noted (offer_of offer.entry)
        (rooms_of own work) (note_rooms notes) wide own
        (lists_as boxes.new borders.new lengths.new texts.new bytes.new) notes
        (notes_as marks.new chains.new groups.new begins.new) result
        × Rests work (works_as starts.new keys.new spare.new kept.new held.new words.new places.new) }
{
    let rooms = Rooms {
        boxes: boxes.len(),
        borders: borders.len(),
        lengths: lengths.len(),
        texts: texts.len(),
        bytes: bytes.len(),
        starts: starts.len(),
        keys: keys.len(),
        spare: spare.len(),
        kept: kept.len(),
        held: held.len(),
        words: words.len(),
        places: places.len(),
    };
    let lent = NoteRooms {
        marks: marks.len(),
        chains: chains.len(),
        groups: groups.len(),
        begins: begins.len(),
    };
    if !stands(builder, rooms) {
        return Added {
            changed: Err(Fault::FileFull.alone()),
            noted,
        };
    }
    let offered = take_offer(builder, offer, bytes, wide, out);
    let size = match offered {
        Ok(size) => size,
        Err(why) => {
            return Added {
                changed: Err(why),
                noted,
            };
        }
    };
    let sum = sum_of(offer.sizes);
    if !has_place(builder, rooms, lent, sum) {
        return Added {
            changed: Err(Fault::FileFull.alone()),
            noted,
        };
    }
    let strings = end_of(builder.strings, sum, texts.len());
    let yard = Offer {
        lats: offer.lats,
        lons: offer.lons,
        pieces: offer.pieces,
        sizes: offer.sizes,
        values: &offer.values[..sum],
    };
    join(
        builder,
        noted,
        strings,
        yard,
        &out[..size],
        boxes,
        borders,
        lengths,
        texts,
        bytes,
        marks,
        chains,
        groups,
        begins,
        starts,
        keys,
        spare,
        kept,
        held,
        words,
        places,
    )
}

// A yard joins the builder, or is refused: 19 to 22, 25, 26, 23, 28. A refusal changes no list of the builder or its notes. The lists to work in are as they were, or zero; of the output only what a border can take is used, and zero then.
pub fn add(
    builder: Held,
    noted: usize,
    lats: &[i32],
    lons: &[i32],
    pieces: &[u32],
    sizes: &[u32],
    values: &[u8],
    boxes: &mut [i32],
    borders: &mut [u32],
    lengths: &mut [u32],
    texts: &mut [u8],
    bytes: &mut [u8],
    marks: &mut [u32],
    chains: &mut [u32],
    groups: &mut [u32],
    begins: &mut [u32],
    starts: &mut [u32],
    keys: &mut [u64],
    spare: &mut [u64],
    kept: &mut [u32],
    held: &mut [u8],
    words: &mut [u32],
    places: &mut [u32],
    out: &mut [u8],
) -> Added
    ensures { let own = lists_as boxes.old borders.old lengths.old texts.old bytes.old in
        let work = works_as starts.old keys.old spare.old kept.old held.old words.old places.old in
        let notes = notes_as marks.old chains.old groups.old begins.old in
        Adds builder noted (offered_as lats.now lons.now pieces.now sizes.now values.now)
        (rooms_of own work) (note_rooms notes) (length out.old) own
        (lists_as boxes.new borders.new lengths.new texts.new bytes.new) notes
        (notes_as marks.new chains.new groups.new begins.new) result
        × Rests work (works_as starts.new keys.new spare.new kept.new held.new words.new places.new)
        × (out.new ≡ used_out (length lats.now) out.old) }
{
    let wide = out.len();
    let lent = lent_to(lats.len(), wide);
    let offer = Offer {
        lats,
        lons,
        pieces,
        sizes,
        values,
    };
    let added = add_kept(
        builder,
        noted,
        offer,
        boxes,
        borders,
        lengths,
        texts,
        bytes,
        marks,
        chains,
        groups,
        begins,
        starts,
        keys,
        spare,
        kept,
        held,
        words,
        places,
        wide,
        &mut out[..lent],
    );
    clear_front(out, lent);
    added
}
