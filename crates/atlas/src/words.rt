// Numbers as words.
// Stays, point 4: these are the definitions' words of a mark (low, kind_of, next_of, end_of); a run cannot be had back from one.
ghost use Rattle.std.specs.Prelude.{◌≡◌};
ghost use Rattle.marks.specs.Marks.{low, kind_of, next_of, end_of, mark_of};
ghost use Rattle.atlas.specs.inner.Marking.{boxed};

use crate::span::Frame;
use border::reader::{Reader, Run};

pub(crate) fn low_of(n: usize) -> u32
    ensures { result ≡ low n }
{
    (n % 0x1_0000_0000) as u32
}

pub(crate) fn low_long(n: u64) -> u32
    ensures { result ≡ low n }
{
    (n % 0x1_0000_0000) as u32
}

pub(crate) fn kind_of(run: Run) -> u32
    ensures { result ≡ kind_of run }
{
    match run {
        Run::Idle => 0,
        Run::Forward { next, end } => 1,
        Run::Backward { next, end } => 2,
    }
}

pub(crate) fn next_of(run: Run) -> usize
    ensures { result ≡ next_of run }
{
    match run {
        Run::Idle => 0,
        Run::Forward { next, end } => next,
        Run::Backward { next, end } => next,
    }
}

pub(crate) fn end_of(run: Run) -> usize
    ensures { result ≡ end_of run }
{
    match run {
        Run::Idle => 0,
        Run::Forward { next, end } => end,
        Run::Backward { next, end } => end,
    }
}

// A mark's words: its box, and of the state its point, its place, what is left of its moves, and its run.
pub(crate) fn mark_of(reader: Reader, frame: Frame) -> [u32; 11]
    ensures { result ≡ mark_of reader (boxed frame) }
{
    let low = frame.low;
    let high = frame.high;
    let point = reader.point;
    let run = reader.run;
    [
        low.lat.0.cast_unsigned(),
        low.lon.0.cast_unsigned(),
        high.lat.0.cast_unsigned(),
        high.lon.0.cast_unsigned(),
        point.lat.0.cast_unsigned(),
        point.lon.0.cast_unsigned(),
        low_of(reader.place),
        low_long(reader.moves),
        kind_of(run),
        low_of(next_of(run)),
        low_of(end_of(run)),
    ]
}
