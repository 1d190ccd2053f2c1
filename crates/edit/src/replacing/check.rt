// Whether a text may stand in the place of a value.
ghost use Rattle.std.specs.Prelude.{◌≡◌, ◌+◌, ◌*◌, ◌^◌, ◌≤◌, ◌<◌, length};
ghost use Rattle.edit.specs.inner.Replacing.Spot.{text_at, spot_in, within, checked_of};

use crate::replacing::find::{is_value, place_behind};
use draft::held::room::{Rooms, has_space, stands};
use draft::held::state::Held;
use numbers::fault::Fault;
use numbers::refusal::Refusal;

// A text: which length is its own, and the bytes where it begins and ends.
#[derive(Clone, Copy)]
pub struct Spot {
    pub index: usize,
    pub place: usize,
    pub from: usize,
}

fn spot_of(index: usize, lengths: &[u32]) -> Spot
    requires { (index < length lengths.now) × (index < 2 ^ 24) }
    ensures { (result ≡ spot_in index lengths.now) × (result.from < 2 ^ 61) }
{
    let place = place_behind(&lengths[..index]);
    let from = place + lengths[index] as usize;
    Spot { index, place, from }
}

// It lies inside the values, and is no longer than a text may be. Nothing is known of a state that no call has made.
fn is_within(builder: Held, spot: Spot) -> bool
    requires { spot.place ≤ spot.from }
    ensures { result ≡ within builder spot }
{
    if spot.place < builder.front {
        return false;
    }
    if builder.strings < spot.from {
        return false;
    }
    if 255 < spot.from - spot.place {
        return false;
    }
    builder.strings <= 0x100_0000_0000
}

// 30, 26, and 28 for a list that is too short.
pub(crate) fn check(
    builder: Held,
    rooms: Rooms,
    out: usize,
    yard: u32,
    field: u32,
    text: &[u8],
    lengths: &[u32],
) -> Result<Spot, Refusal>
    requires { length lengths.now ≡ rooms.lengths }
    ensures { result ≡ checked_of builder rooms out yard field text.now lengths.now }
{
    if !stands(builder, rooms) {
        return Err(Fault::FileFull.alone());
    }
    let names = builder.names as usize;
    if builder.yards <= yard as usize {
        return Err(Fault::NoValue.alone());
    }
    if builder.names <= field {
        return Err(Fault::NoValue.alone());
    }
    if !is_value(text) {
        return Err(Fault::BadText.alone());
    }
    let index = names + 1 + (yard as usize * names + field as usize);
    let spot = spot_of(index, lengths);
    if !is_within(builder, spot) {
        return Err(Fault::FileFull.alone());
    }
    if out < builder.strings {
        return Err(Fault::FileFull.alone());
    }
    let strings = spot.place + text.len() + (builder.strings - spot.from);
    if !has_space(rooms, names, builder.yards, builder.front, strings) {
        return Err(Fault::FileFull.alone());
    }
    Ok(spot)
}
