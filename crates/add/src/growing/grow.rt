// What a builder becomes with a yard more.
ghost use Rattle.std.specs.Prelude.{◌≡◌};
ghost use Rattle.add.specs.inner.Growing.Joins.{Grows, measured_as, totals_with};

use draft::held::state::Held;
use draft::summed::sums::{Sums, fits};
use numbers::fault::Fault;
use numbers::refusal::Refusal;

// What a call makes of a builder, and what is noted then: 0 for nothing, else one more than the bytes of the records.
#[derive(Clone, Copy)]
pub struct Added {
    pub changed: Result<Held, Refusal>,
    pub noted: usize,
}

// With so many bytes of texts and so many more of data; 28 where its file is too long.
pub(crate) fn grow(builder: Held, strings: usize, size: usize, sums: Sums) -> Result<Held, Refusal>
    requires { Grows builder size }
    ensures { result ≡ measured_as builder strings (totals_with builder size sums) }
{
    let bytes = builder.bytes + size;
    if !fits(builder.head, sums.table, sums.metadata, bytes, builder.room) {
        return Err(Fault::FileFull.alone());
    }
    Ok(Held {
        kind: builder.kind,
        version: builder.version,
        precision: builder.precision,
        names: builder.names,
        room: builder.room,
        head: builder.head,
        front: builder.front,
        strings,
        table: sums.table,
        metadata: sums.metadata,
        bytes,
        yards: builder.yards + 1,
        greatest: sums.greatest,
    })
}
