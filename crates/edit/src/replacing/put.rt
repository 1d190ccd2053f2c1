// A text in the place of a value, and the builder with it.
// Stays, point 6: C lends these lists and keeps the builder's; an old value is put aside in 255 bytes, for there is no heap.
ghost use mathlib.Core.{Path.{◌≡◌}, List.{List}};
ghost use Rattle.std.specs.Prelude.{ℕ, ◌^◌, ◌≤◌, ◌<◌, length};
ghost use Rattle.build.specs.Room.{work_of};
ghost use Rattle.draft.specs.Held.State.{lists_as};
ghost use Rattle.edit.specs.inner.Replacing.{Exchange.{Exchanging}, Replaced.{Putting, PutIn, Renews, TakenBack, spot_up_to}};

use crate::replacing::check::Spot;
use crate::replacing::exchange::exchange;
use crate::replacing::resum::resum;
use builder::put::put_bytes;
use draft::held::state::Held;
use numbers::refusal::Refusal;

// Its bytes and its length.
fn put_in(
    spot: Spot,
    strings: usize,
    text: &[u8],
    lengths: &mut [u32],
    texts: &mut [u8],
    out: &mut [u8],
) -> usize
    requires { (spot.index < length lengths.old) × Exchanging spot.place spot.from strings (length text.now) (length texts.old) (length out.old) }
    ensures { PutIn spot strings text.now lengths.old texts.old lengths.new texts.new result }
{
    let index = spot.index;
    lengths[index] = text.len() as u32;
    exchange(spot.place, spot.from, strings, text, texts, out)
}

// Where a text of this size stands now.
fn spot_up_to(spot: Spot, size: usize) -> Spot
    requires { (spot.place ≤ 2 ^ 40) × (size ≤ 255) }
    ensures { result ≡ spot_up_to spot size }
{
    Spot {
        index: spot.index,
        place: spot.place,
        from: spot.place + size,
    }
}

// Another text comes back where the builder with this one was refused.
fn take_back(
    changed: Result<Held, Refusal>,
    spot: Spot,
    strings: usize,
    old: &[u8],
    lengths: &mut [u32],
    texts: &mut [u8],
    out: &mut [u8],
) -> Result<Held, Refusal>
    requires { (spot.index < length lengths.old) × Exchanging spot.place spot.from strings (length old.now) (length texts.old) (length out.old) }
    ensures { TakenBack changed spot strings old.now lengths.old texts.old lengths.new texts.new result }
{
    match changed {
        Ok(next) => Ok(next),
        Err(why) => {
            put_in(spot, strings, old, lengths, texts, out);
            Err(why)
        }
    }
}

// The old text is kept, and comes back if the file with the new one does not fit.
pub(crate) fn put_value(
    builder: Held,
    spot: Spot,
    text: &[u8],
    boxes: &[i32],
    borders: &[u32],
    lengths: &mut [u32],
    texts: &mut [u8],
    starts: &mut [u32],
    keys: &mut [u64],
    spare: &mut [u64],
    kept: &mut [u32],
    held: &mut [u8],
    words: &mut [u32],
    places: &mut [u32],
    out: &mut [u8],
) -> Result<Held, Refusal>
    requires { Putting builder spot (length text.now) (length borders.now) (length lengths.old) (length texts.old) (length out.old) (work_of (length starts.old) (length keys.old) (length spare.old) (length kept.old) (length held.old) (length words.old) (length places.old) (length boxes.now)) }
    ensures { (bytes : List ℕ) → Renews builder spot text.now (lists_as boxes.now borders.now lengths.old texts.old bytes) (lists_as boxes.now borders.now lengths.new texts.new bytes) result }
{
    let place = spot.place;
    let from = spot.from;
    let size = from - place;
    let mut old = [0u8; 255];
    put_bytes(&mut old, 0, &texts[place..from]);
    let strings = put_in(spot, builder.strings, text, lengths, texts, out);
    let changed = resum(
        builder, strings, boxes, borders, lengths, texts, starts, keys, spare, kept, held, words,
        places,
    );
    let again = spot_up_to(spot, text.len());
    take_back(changed, again, strings, &old[..size], lengths, texts, out)
}
