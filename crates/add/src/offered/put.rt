// A yard into the lists of a builder, behind what it holds, and out of them again.
// Stays, point 6: C lends these lists, longer than what stands in them, and keeps the builder's between the calls.
ghost use Rattle.std.specs.Prelude.{length};
ghost use Rattle.draft.specs.Held.State.{lists_as};
ghost use Rattle.add.specs.inner.Offered.Puts.{Placed, Puts, Ended};

use crate::offered::offer::Offer;
use build::entries::corners::put_corners;
use build::metadata::kept::put_words;
use build::zero::zero_numbers;
use builder::boxes::box_of;
use builder::put::put_bytes;
use draft::held::state::Held;
use header::field::zero;
use header::zero::zero_words;

pub(crate) fn put_yard(
    builder: Held,
    yard: Offer,
    border: &[u8],
    boxes: &mut [i32],
    borders: &mut [u32],
    lengths: &mut [u32],
    texts: &mut [u8],
    bytes: &mut [u8],
)
    requires { Placed builder (length yard.sizes.now) (length yard.values.now) (length border.now) (lists_as boxes.old borders.old lengths.old texts.old bytes.old) }
    ensures { Puts builder yard.entry.lats.now yard.entry.lons.now yard.entry.sizes.now yard.entry.values.now border.now (lists_as boxes.old borders.old lengths.old texts.old bytes.old) (lists_as boxes.new borders.new lengths.new texts.new bytes.new) }
{
    let at = builder.yards;
    let names = builder.names as usize;
    let text = builder.strings;
    let place = builder.bytes;
    let bounds = box_of(yard.lats, yard.lons);
    put_corners(boxes, 4 * at, bounds);
    borders[at] = place as u32;
    put_words(lengths, names + 1 + names * at, yard.sizes);
    put_bytes(&mut texts[text..], 0, yard.values);
    put_bytes(bytes, place, border);
}

// What stands behind what the builder holds goes.
pub(crate) fn take_back(
    builder: Held,
    boxes: &mut [i32],
    borders: &mut [u32],
    lengths: &mut [u32],
    texts: &mut [u8],
    bytes: &mut [u8],
)
    requires { Placed builder 0 0 0 (lists_as boxes.old borders.old lengths.old texts.old bytes.old) }
    ensures { Ended builder (lists_as boxes.old borders.old lengths.old texts.old bytes.old) (lists_as boxes.new borders.new lengths.new texts.new bytes.new) }
{
    let at = builder.yards;
    let names = builder.names as usize;
    let corner = 4 * at;
    let length = names + 1 + names * at;
    let text = builder.strings;
    let byte = builder.bytes;
    zero_numbers(&mut boxes[corner..]);
    zero_words(&mut borders[at..]);
    zero_words(&mut lengths[length..]);
    zero(&mut texts[text..]);
    zero(&mut bytes[byte..]);
}
