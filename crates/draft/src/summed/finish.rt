// The end of a builder: its file, at the front of an output lent then.
// Stays, point 6: C lends these lists, longer than what stands in them, and keeps the builder's between the calls.
ghost use mathlib.Core.{Bool.{false}, Path.{◌≡◌}};
ghost use Rattle.std.specs.Prelude.{length};
ghost use Rattle.build.specs.inner.Whole.{Fills};
ghost use Rattle.draft.specs.Held.{Builder.{Builder, finish}, Space.{standing}, State.{Holds, Idle, lists_as, rooms_of, works_as}};
ghost use Rattle.numbers.specs.Reply.{refused, plain};
ghost use Rattle.draft.specs.{Summed.Ends.{space_of, Files}, inner.Summed.Sums.{lists_in}};

use crate::held::own::Own;
use crate::held::room::{Rooms, has_space, stands};
use crate::held::state::Held;
use crate::summed::file::{are_whole, put_file};
use crate::summed::rest::rest_work;
use build::file::settle;
use build::room::up_to;
use numbers::fault::Fault;
use numbers::refusal::Refusal;

// With nothing zeroed afterwards.
// Stays parameters: behind a struct of `&mut` lists a caller's proof did not close (tried in build's `clear`).
fn fill(
    builder: Held,
    own: Own,
    starts: &mut [u32],
    keys: &mut [u64],
    spare: &mut [u64],
    kept: &mut [u32],
    held: &mut [u8],
    words: &mut [u32],
    places: &mut [u32],
    out: &mut [u8],
) -> Result<usize, Refusal>
    ensures { let lists = lists_in own.entry in
        let work = works_as starts.old keys.old spare.old kept.old held.old words.old places.old in
        ((b : Builder) → Holds b builder lists
        → Fills (finish b (length out.old) (space_of builder (rooms_of lists work))) (length out.old) out.new result)
        × (standing builder (rooms_of lists work) ≡ false → result ≡ refused (plain 28)) }
{
    let rooms = Rooms {
        boxes: own.boxes.len(),
        borders: own.borders.len(),
        lengths: own.lengths.len(),
        texts: own.texts.len(),
        bytes: own.bytes.len(),
        starts: starts.len(),
        keys: keys.len(),
        spare: spare.len(),
        kept: kept.len(),
        held: held.len(),
        words: words.len(),
        places: places.len(),
    };
    if !stands(builder, rooms) {
        return Err(Fault::FileFull.alone());
    }
    if builder.yards == 0 {
        return Err(Fault::BadYards.alone());
    }
    if !has_space(
        rooms,
        builder.names as usize,
        builder.yards,
        builder.front,
        builder.strings,
    ) {
        return Err(Fault::FileFull.alone());
    }
    if !are_whole(builder, own.lengths) {
        return Err(Fault::FileFull.alone());
    }
    let end = put_file(
        builder, own, starts, keys, spare, kept, held, words, places, out,
    );
    if up_to(out.len()) < end {
        return Err(Fault::FileFull.alone());
    }
    Ok(end)
}

// The file at the front of the output, zeros behind it; on a refusal zeros alone. The builder stays as it is.
pub fn finish(
    builder: Held,
    boxes: &[i32],
    borders: &[u32],
    lengths: &[u32],
    texts: &[u8],
    bytes: &[u8],
    starts: &mut [u32],
    keys: &mut [u64],
    spare: &mut [u64],
    kept: &mut [u32],
    held: &mut [u8],
    words: &mut [u32],
    places: &mut [u32],
    out: &mut [u8],
) -> Result<usize, Refusal>
    ensures { let own = lists_as boxes.now borders.now lengths.now texts.now bytes.now in
        let work = works_as starts.old keys.old spare.old kept.old held.old words.old places.old in
        Files builder (rooms_of own work) own (length out.old) out.new result
        × Idle work (works_as starts.new keys.new spare.new kept.new held.new words.new places.new) }
{
    let own = Own {
        boxes,
        borders,
        lengths,
        texts,
        bytes,
    };
    let built = fill(
        builder, own, starts, keys, spare, kept, held, words, places, out,
    );
    rest_work(starts, keys, spare, kept, held, words, places);
    settle(built, out)
}
