// A builder as it was begun.
// Stays, point 6: C lends these lists, longer than what stands in them, and keeps them between the calls.
ghost use Rattle.std.specs.Prelude.{◌≡◌};
ghost use Rattle.draft.specs.Held.State.{lists_as};
ghost use Rattle.edit.specs.Changing.Emptied.{Clears, emptied_of, own_rooms};

use crate::changing::cut::{Ends, cut_lists};
use draft::held::room::{Rooms, stands};
use draft::held::state::Held;
use numbers::fault::Fault;
use numbers::refusal::Refusal;

// The same numbers without a yard: the data is the zero byte alone.
fn emptied(builder: Held) -> Held
    ensures { result ≡ emptied_of builder }
{
    Held {
        kind: builder.kind,
        version: builder.version,
        precision: builder.precision,
        names: builder.names,
        room: builder.room,
        head: builder.head,
        front: builder.front,
        strings: builder.front,
        table: 0,
        metadata: 0,
        bytes: 1,
        yards: 0,
        greatest: 0,
    }
}

// As it was begun; 28 only for a builder that no call has made.
pub fn clear(
    builder: Held,
    boxes: &mut [i32],
    borders: &mut [u32],
    lengths: &mut [u32],
    texts: &mut [u8],
    bytes: &mut [u8],
) -> Result<Held, Refusal>
    ensures { let own = lists_as boxes.old borders.old lengths.old texts.old bytes.old in
        Clears builder (own_rooms own) own (lists_as boxes.new borders.new lengths.new texts.new bytes.new) result }
{
    let rooms = Rooms {
        boxes: boxes.len(),
        borders: borders.len(),
        lengths: lengths.len(),
        texts: texts.len(),
        bytes: bytes.len(),
        starts: 0,
        keys: 0,
        spare: 0,
        kept: 0,
        held: 0,
        words: 0,
        places: 0,
    };
    if !stands(builder, rooms) {
        return Err(Fault::FileFull.alone());
    }
    let ends = Ends {
        boxes: 0,
        borders: 0,
        lengths: builder.names as usize + 1,
        texts: builder.front,
        bytes: 0,
    };
    cut_lists(ends, boxes, borders, lengths, texts, bytes);
    Ok(emptied(builder))
}
