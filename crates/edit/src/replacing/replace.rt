// A value of a builder, replaced.
// Stays, point 6: C lends these lists, longer than what stands in them, and keeps the builder's between the calls.
ghost use Rattle.std.specs.Prelude.{◌≡◌, length};
ghost use Rattle.numbers.specs.Lists.{zeros};
ghost use Rattle.draft.specs.Held.State.{Idle, lists_as, rooms_of, works_as};
ghost use Rattle.edit.specs.Replacing.Replaced.{Replaces};

use crate::replacing::check::check;
use crate::replacing::put::put_value;
use draft::held::room::Rooms;
use draft::held::state::Held;
use draft::summed::rest::rest;
use numbers::refusal::Refusal;

// With nothing zeroed afterwards.
fn change(
    builder: Held,
    yard: u32,
    field: u32,
    text: &[u8],
    boxes: &[i32],
    borders: &[u32],
    bytes: &[u8],
    lengths: &mut [u32],
    texts: &mut [u8],
    starts: &mut [u32],
    keys: &mut [u64],
    spare: &mut [u64],
    kept: &mut [u32],
    held: &mut [u8],
    words: &mut [u32],
    places: &mut [u32],
    out: &mut [u8],
) -> Result<Held, Refusal>
    ensures { let own = lists_as boxes.now borders.now lengths.old texts.old bytes.now in
        let work = works_as starts.old keys.old spare.old kept.old held.old words.old places.old in
        Replaces builder (rooms_of own work) (length out.old) yard field text.now own
        (lists_as boxes.now borders.now lengths.new texts.new bytes.now) result }
{
    let rooms = Rooms {
        boxes: boxes.len(),
        borders: borders.len(),
        lengths: lengths.len(),
        texts: texts.len(),
        bytes: bytes.len(),
        starts: starts.len(),
        keys: keys.len(),
        spare: spare.len(),
        kept: kept.len(),
        held: held.len(),
        words: words.len(),
        places: places.len(),
    };
    let spot = check(builder, rooms, out.len(), yard, field, text, lengths)?;
    put_value(
        builder, spot, text, boxes, borders, lengths, texts, starts, keys, spare, kept, held,
        words, places, out,
    )
}

// Another text for a value: 30 where the yard or the field is not there, 26, and 28 last. A refusal changes nothing.
pub fn replace(
    builder: Held,
    yard: u32,
    field: u32,
    text: &[u8],
    boxes: &[i32],
    borders: &[u32],
    bytes: &[u8],
    lengths: &mut [u32],
    texts: &mut [u8],
    starts: &mut [u32],
    keys: &mut [u64],
    spare: &mut [u64],
    kept: &mut [u32],
    held: &mut [u8],
    words: &mut [u32],
    places: &mut [u32],
    out: &mut [u8],
) -> Result<Held, Refusal>
    ensures { let own = lists_as boxes.now borders.now lengths.old texts.old bytes.now in
        let work = works_as starts.old keys.old spare.old kept.old held.old words.old places.old in
        Replaces builder (rooms_of own work) (length out.old) yard field text.now own
        (lists_as boxes.now borders.now lengths.new texts.new bytes.now) result
        × Idle work (works_as starts.new keys.new spare.new kept.new held.new words.new places.new)
        × (out.new ≡ zeros (length out.old)) }
{
    let changed = change(
        builder, yard, field, text, boxes, borders, bytes, lengths, texts, starts, keys, spare,
        kept, held, words, places, out,
    );
    rest(starts, keys, spare, kept, held, words, places, out);
    changed
}
