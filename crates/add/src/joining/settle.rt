// What a yard that lies in the lists makes of a builder: by a sure step, else by a fresh sum.
// Stays, point 6: C lends these lists, longer than what stands in them, and keeps the builder's and the notes' between the calls.
ghost use Rattle.std.specs.Prelude.{length};
ghost use Rattle.build.specs.Room.{work_of};
ghost use Rattle.add.specs.Growing.Notes.{notes_as};
ghost use Rattle.draft.specs.Held.State.{works_as};
ghost use Rattle.add.specs.{inner.Joining.Joins.{Measuring, Settles}, Joining.Joins.{Rests}};

use crate::afresh::join::join_afresh;
use crate::growing::grow::Added;
use crate::surely::sure::join_sure;
use draft::held::state::Held;
use draft::summed::rest::rest_work;

// The texts end so then, and the data is so many bytes longer.
pub(crate) fn settle(
    builder: Held,
    noted: usize,
    strings: usize,
    size: usize,
    sizes: &[u32],
    boxes: &[i32],
    borders: &[u32],
    lengths: &[u32],
    texts: &[u8],
    marks: &mut [u32],
    chains: &mut [u32],
    groups: &mut [u32],
    begins: &mut [u32],
    starts: &mut [u32],
    keys: &mut [u64],
    spare: &mut [u64],
    kept: &mut [u32],
    held: &mut [u8],
    words: &mut [u32],
    places: &mut [u32],
) -> Added
    requires { Measuring builder sizes.now strings size (length borders.now) (length lengths.now) (length texts.now) (work_of (length starts.old) (length keys.old) (length spare.old) (length kept.old) (length held.old) (length words.old) (length places.old) (length boxes.now))
        (length marks.old) (length chains.old) (length groups.old) (length begins.old) }
    ensures { Settles builder noted strings size sizes.now boxes.now borders.now lengths.now texts.now
        (notes_as marks.old chains.old groups.old begins.old) (notes_as marks.new chains.new groups.new begins.new) result
        × Rests (works_as starts.old keys.old spare.old kept.old held.old words.old places.old)
        (works_as starts.new keys.new spare.new kept.new held.new words.new places.new) }
{
    let front = builder.front;
    let first = builder.names as usize + 1;
    let last = first + builder.names as usize * (builder.yards + 1);
    let sure = join_sure(
        builder,
        noted,
        strings,
        size,
        sizes,
        boxes,
        borders,
        &texts[front..strings],
        marks,
        chains,
        groups,
        begins,
    );
    match sure {
        Ok(Some(next)) => {
            return Added {
                changed: Ok(next.held),
                noted: next.noted,
            };
        }
        Ok(None) => (),
        Err(why) => {
            return Added {
                changed: Err(why),
                noted,
            };
        }
    }
    let added = join_afresh(
        builder,
        noted,
        strings,
        size,
        boxes,
        borders,
        &lengths[first..last],
        &texts[front..strings],
        marks,
        chains,
        groups,
        begins,
        starts,
        keys,
        spare,
        kept,
        held,
        words,
        places,
    );
    rest_work(starts, keys, spare, kept, held, words, places);
    added
}
