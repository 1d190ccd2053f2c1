// Fields: the points whose coordinates lie in two spans.
ghost use mathlib.Core.{Path.{◌≡◌}, Bool.{true}};
ghost use Rattle.std.specs.Prelude.{◌^◌, ◌<◌};
ghost use Rattle.std.specs.Int.Signed.{mag};
ghost use Rattle.verdict.specs.inner.Gliding.{in_span, beside, aside, within, Held};

use border::place::Point;

// The numbers between two others.
#[derive(Clone, Copy)]
pub(crate) struct Span {
    pub low: i32,
    pub high: i32,
}

// The points whose latitude and longitude lie in two spans.
#[derive(Clone, Copy)]
pub(crate) struct Field {
    pub lat: Span,
    pub lon: Span,
}

pub(crate) fn lies_in(span: Span, x: i64) -> bool
    ensures { (result ≡ in_span span x) × (result ≡ true → mag x < 2 ^ 31) }
{
    (span.low as i64) < x && x < (span.high as i64)
}

pub(crate) fn is_within(field: Field, p: Point) -> bool
    ensures { result ≡ within field p }
{
    lies_in(field.lat, p.lat.0 as i64) && lies_in(field.lon, p.lon.0 as i64)
}

// The numbers on the side of x where another one lies.
fn side_of(x: i32, other: i32) -> Span
    ensures { beside x result ≡ true }
{
    if x < other {
        return Span {
            low: x,
            high: 2147483647,
        };
    }
    Span {
        low: -2147483648,
        high: x,
    }
}

// The quadrant about a location in which a point lies.
pub(crate) fn field_of(fix: Point, p: Point) -> Field
    ensures { aside fix result ≡ true }
{
    Field {
        lat: side_of(fix.lat.0, p.lat.0),
        lon: side_of(fix.lon.0, p.lon.0),
    }
}

// The field, if it holds a point.
pub(crate) fn held(field: Field, p: Point) -> Option<Field>
    ensures { Held field p result }
{
    if is_within(field, p) {
        Some(field)
    } else {
        None
    }
}
