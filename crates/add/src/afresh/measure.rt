// The lists summed up, which have the yard now.
// Stays, point 6: C lends these lists, longer than what stands in them, and keeps the builder's between the calls.
ghost use Rattle.std.specs.Prelude.{◌+◌, length};
ghost use Rattle.build.specs.Room.{work_of};
ghost use Rattle.add.specs.inner.Afresh.Afresh.{Measuring, Measures, Lying};

use crate::growing::grow::grow;
use draft::held::state::Held;
use draft::summed::sums::sum_up;
use numbers::fault::Fault;
use numbers::refusal::Refusal;

// What the builder becomes, and the bytes of its records.
#[derive(Clone, Copy)]
pub(crate) struct Measured {
    pub changed: Result<Held, Refusal>,
    pub records: u32,
}

// The texts end so then, and the data is so many bytes longer. Lengths and texts are those of the values alone.
pub(crate) fn measure(
    builder: Held,
    strings: usize,
    size: usize,
    boxes: &[i32],
    borders: &[u32],
    lengths: &[u32],
    texts: &[u8],
    starts: &mut [u32],
    keys: &mut [u64],
    spare: &mut [u64],
    kept: &mut [u32],
    held: &mut [u8],
    words: &mut [u32],
    places: &mut [u32],
) -> Measured
    requires { Measuring builder size (length borders.now) (length lengths.now) (length texts.now) (work_of (length starts.old) (length keys.old) (length spare.old) (length kept.old) (length held.old) (length words.old) (length places.old) (length boxes.now)) }
    ensures { Lying builder size boxes.now borders.now lengths.now texts.now (λ yards drawn. Measures yards drawn builder strings places.new result) }
{
    let summed = sum_up(
        builder.names as usize,
        builder.yards + 1,
        boxes,
        borders,
        lengths,
        texts,
        starts,
        keys,
        spare,
        kept,
        held,
        words,
        places,
    );
    let Some(sums) = summed else {
        return Measured {
            changed: Err(Fault::FileFull.alone()),
            records: 0,
        };
    };
    Measured {
        changed: grow(builder, strings, size, sums),
        records: sums.records,
    }
}
