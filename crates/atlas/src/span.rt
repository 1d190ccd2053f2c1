// A stretch: the box of its points, and the state at the last.
ghost use Rattle.std.specs.Prelude.{◌≡◌};
ghost use Rattle.border.specs.Box.{grown};
ghost use Rattle.marks.specs.Marks.{span_from};
ghost use Rattle.atlas.specs.inner.Marking.{boxed, told_reach};

use border::place::Point;
use border::reader::{Encoding, Reader, next_point};

// A box, by its lower and its upper corner.
#[derive(Clone, Copy)]
pub struct Frame {
    pub low: Point,
    pub high: Point,
}

#[derive(Clone, Copy)]
pub struct Reach {
    pub frame: Frame,
    pub last: Reader,
}

// A box that a point is taken into.
fn grow(frame: Frame, point: Point) -> Frame
    ensures { boxed result ≡ grown (boxed frame) point }
{
    let low = frame.low;
    let high = frame.high;
    Frame {
        low: Point {
            lat: low.lat.min(point.lat),
            lon: low.lon.min(point.lon),
        },
        high: Point {
            lat: high.lat.max(point.lat),
            lon: high.lon.max(point.lon),
        },
    }
}

// Over so many edges from a state on, or up to the border's end.
pub(crate) fn span_from(file: &[u8], encoding: Encoding, start: Reader, edges: usize) -> Reach
    ensures { told_reach result ≡ span_from edges file.now encoding start }
{
    let corner = start.point;
    let mut last = start;
    let mut frame = Frame {
        low: corner,
        high: corner,
    };
    for _ in 0..edges {
        let Some(later) = next_point(file, encoding, last).unwrap_or(None) else {
            return Reach { frame, last };
        };
        frame = grow(frame, later.point);
        last = later;
    }
    Reach { frame, last }
}
