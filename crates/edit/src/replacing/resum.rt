// The sums of a builder whose texts have changed.
// Stays, point 6: C lends these lists, longer than what stands in them, and keeps the builder's between the calls.
ghost use Rattle.std.specs.Prelude.{◌≡◌, length};
ghost use Rattle.build.specs.Room.{work_of};
ghost use Rattle.edit.specs.inner.Replacing.Replaced.{Resumming, Resums, resummed};

use draft::held::state::Held;
use draft::summed::sums::{Sums, fits, sum_up};
use numbers::fault::Fault;
use numbers::refusal::Refusal;

// 28 if its file no longer fits. The data and the yards stay what they are.
fn settle(builder: Held, strings: usize, sums: Sums) -> Result<Held, Refusal>
    ensures { result ≡ resummed builder strings sums.table sums.metadata sums.greatest }
{
    let table = sums.table;
    let metadata = sums.metadata;
    if !fits(builder.head, table, metadata, builder.bytes, builder.room) {
        return Err(Fault::FileFull.alone());
    }
    Ok(Held {
        kind: builder.kind,
        version: builder.version,
        precision: builder.precision,
        names: builder.names,
        room: builder.room,
        head: builder.head,
        front: builder.front,
        strings,
        table,
        metadata,
        bytes: builder.bytes,
        yards: builder.yards,
        greatest: sums.greatest,
    })
}

pub(crate) fn resum(
    builder: Held,
    strings: usize,
    boxes: &[i32],
    borders: &[u32],
    lengths: &[u32],
    texts: &[u8],
    starts: &mut [u32],
    keys: &mut [u64],
    spare: &mut [u64],
    kept: &mut [u32],
    held: &mut [u8],
    words: &mut [u32],
    places: &mut [u32],
) -> Result<Held, Refusal>
    requires { Resumming builder strings (length borders.now) (length lengths.now) (length texts.now) (work_of (length starts.old) (length keys.old) (length spare.old) (length kept.old) (length held.old) (length words.old) (length places.old) (length boxes.now)) }
    ensures { Resums builder strings boxes.now borders.now lengths.now texts.now result }
{
    let names = builder.names as usize;
    let count = builder.yards;
    let from = names + 1;
    let to = from + names * count;
    let front = builder.front;
    let summed = sum_up(
        names,
        count,
        boxes,
        borders,
        &lengths[from..to],
        &texts[front..strings],
        starts,
        keys,
        spare,
        kept,
        held,
        words,
        places,
    );
    let Some(sums) = summed else {
        return Err(Fault::FileFull.alone());
    };
    settle(builder, strings, sums)
}
