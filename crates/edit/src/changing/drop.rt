// A builder without the yard that came last.
// Stays, point 6: C lends these lists, longer than what stands in them, and keeps the builder's between the calls.
ghost use Rattle.std.specs.Prelude.{◌≡◌, length};
ghost use Rattle.draft.specs.Held.State.{Idle, lists_as, rooms_of, works_as};
ghost use Rattle.edit.specs.{Changing.Dropped.{Drops}, inner.Changing.Dropped.{Shortens, with_sums}};

use crate::changing::cut::{Ends, cut_lists};
use crate::changing::sum::sum_within;
use draft::held::room::{Rooms, has_space, stands};
use draft::held::state::Held;
use draft::summed::rest::rest_work;
use draft::summed::sums::{Sums, sum_up};
use numbers::fault::Fault;
use numbers::refusal::Refusal;

// The numbers with a yard less, and the sums as they were. The data ends where the last border began.
fn shorten(builder: Held, rooms: Rooms, borders: &[u32], lengths: &[u32]) -> Result<Held, Refusal>
    requires { (rooms.borders ≡ length borders.now) × (rooms.lengths ≡ length lengths.now) }
    ensures { Shortens builder rooms borders.now lengths.now result }
{
    if !stands(builder, rooms) {
        return Err(Fault::NoYard.alone());
    }
    if builder.yards == 0 {
        return Err(Fault::NoYard.alone());
    }
    let names = builder.names as usize;
    let count = builder.yards - 1;
    let from = names + 1 + names * count;
    let to = from + names;
    let Some(last) = sum_within(&lengths[from..to], builder.strings - builder.front) else {
        return Err(Fault::FileFull.alone());
    };
    let bytes = borders[count] as usize;
    if builder.bytes < bytes {
        return Err(Fault::FileFull.alone());
    }
    let strings = builder.strings - last;
    if !has_space(rooms, names, count, builder.front, strings) {
        return Err(Fault::FileFull.alone());
    }
    Ok(Held {
        kind: builder.kind,
        version: builder.version,
        precision: builder.precision,
        names: builder.names,
        room: builder.room,
        head: builder.head,
        front: builder.front,
        strings,
        table: builder.table,
        metadata: builder.metadata,
        bytes,
        yards: count,
        greatest: builder.greatest,
    })
}

fn with_sums(held: Held, sums: Sums) -> Held
    ensures { result ≡ with_sums held sums.table sums.metadata sums.greatest }
{
    Held {
        kind: held.kind,
        version: held.version,
        precision: held.precision,
        names: held.names,
        room: held.room,
        head: held.head,
        front: held.front,
        strings: held.strings,
        table: sums.table,
        metadata: sums.metadata,
        bytes: held.bytes,
        yards: held.yards,
        greatest: sums.greatest,
    }
}

// The sums are taken before anything is cut, so that a refusal changes nothing.
fn drop_yard(
    builder: Held,
    boxes: &mut [i32],
    borders: &mut [u32],
    lengths: &mut [u32],
    texts: &mut [u8],
    bytes: &mut [u8],
    starts: &mut [u32],
    keys: &mut [u64],
    spare: &mut [u64],
    kept: &mut [u32],
    held: &mut [u8],
    words: &mut [u32],
    places: &mut [u32],
) -> Result<Held, Refusal>
    ensures { let own = lists_as boxes.old borders.old lengths.old texts.old bytes.old in
        let work = works_as starts.old keys.old spare.old kept.old held.old words.old places.old in
        Drops builder (rooms_of own work) own (lists_as boxes.new borders.new lengths.new texts.new bytes.new) result }
{
    let rooms = Rooms {
        boxes: boxes.len(),
        borders: borders.len(),
        lengths: lengths.len(),
        texts: texts.len(),
        bytes: bytes.len(),
        starts: starts.len(),
        keys: keys.len(),
        spare: spare.len(),
        kept: kept.len(),
        held: held.len(),
        words: words.len(),
        places: places.len(),
    };
    let left = shorten(builder, rooms, borders, lengths)?;
    let names = left.names as usize;
    let count = left.yards;
    let from = names + 1;
    let to = from + names * count;
    let front = left.front;
    let strings = left.strings;
    let summed = sum_up(
        names,
        count,
        boxes,
        borders,
        &lengths[from..to],
        &texts[front..strings],
        starts,
        keys,
        spare,
        kept,
        held,
        words,
        places,
    );
    let Some(sums) = summed else {
        return Err(Fault::FileFull.alone());
    };
    let ends = Ends {
        boxes: 4 * count,
        borders: count,
        lengths: to,
        texts: strings,
        bytes: left.bytes,
    };
    cut_lists(ends, boxes, borders, lengths, texts, bytes);
    Ok(with_sums(left, sums))
}

// 29 for no yard; 28 only where a list to work in is too short.
pub fn drop_last(
    builder: Held,
    boxes: &mut [i32],
    borders: &mut [u32],
    lengths: &mut [u32],
    texts: &mut [u8],
    bytes: &mut [u8],
    starts: &mut [u32],
    keys: &mut [u64],
    spare: &mut [u64],
    kept: &mut [u32],
    held: &mut [u8],
    words: &mut [u32],
    places: &mut [u32],
) -> Result<Held, Refusal>
    ensures { let own = lists_as boxes.old borders.old lengths.old texts.old bytes.old in
        let work = works_as starts.old keys.old spare.old kept.old held.old words.old places.old in
        Drops builder (rooms_of own work) own (lists_as boxes.new borders.new lengths.new texts.new bytes.new) result
        × Idle work (works_as starts.new keys.new spare.new kept.new held.new words.new places.new) }
{
    let dropped = drop_yard(
        builder, boxes, borders, lengths, texts, bytes, starts, keys, spare, kept, held, words,
        places,
    );
    rest_work(starts, keys, spare, kept, held, words, places);
    dropped
}
