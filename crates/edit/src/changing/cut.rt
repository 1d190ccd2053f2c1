// A builder's lists, zero behind what is kept of each.
// Stays, point 6: C lends these lists, longer than what stands in them, and keeps them between the calls.
ghost use Rattle.std.specs.Prelude.{◌≡◌};
ghost use Rattle.draft.specs.Held.State.{lists_as};
ghost use Rattle.edit.specs.inner.Changing.Cut.{Inside, cut_to};

use build::zero::zero_numbers;
use header::field::zero;
use header::zero::zero_words;

// How much of each list is kept.
#[derive(Clone, Copy)]
pub(crate) struct Ends {
    pub boxes: usize,
    pub borders: usize,
    pub lengths: usize,
    pub texts: usize,
    pub bytes: usize,
}

pub(crate) fn cut_lists(
    ends: Ends,
    boxes: &mut [i32],
    borders: &mut [u32],
    lengths: &mut [u32],
    texts: &mut [u8],
    bytes: &mut [u8],
)
    requires { Inside ends (lists_as boxes.old borders.old lengths.old texts.old bytes.old) }
    ensures { lists_as boxes.new borders.new lengths.new texts.new bytes.new
        ≡ cut_to ends (lists_as boxes.old borders.old lengths.old texts.old bytes.old) }
{
    let kept = ends.boxes;
    zero_numbers(&mut boxes[kept..]);
    let held = ends.borders;
    zero_words(&mut borders[held..]);
    let counted = ends.lengths;
    zero_words(&mut lengths[counted..]);
    let read = ends.texts;
    zero(&mut texts[read..]);
    let drawn = ends.bytes;
    zero(&mut bytes[drawn..]);
}
