// Fixed coordinates. Their scales differ by two, so each has a type of its own.
ghost use Rattle.std.specs.Prelude.{◌≡◌, ◌^◌};
ghost use lib.{Dec.{ltb}, Signed.{mag}};
ghost use Rattle.border.specs.{Place.{is_still, moved_by, negated}};
ghost use Rattle.numbers.specs.Varint.{told};

use numbers::point::RawPoint;
use numbers::varint::Stop;

#[derive(Clone, Copy, PartialEq, Eq, PartialOrd, Ord)]
pub struct FixedLat(pub i32);

#[derive(Clone, Copy, PartialEq, Eq, PartialOrd, Ord)]
pub struct FixedLon(pub i32);

#[derive(Clone, Copy, PartialEq, Eq)]
pub struct Point {
    pub lat: FixedLat,
    pub lon: FixedLon,
}

// Whether an exact result fits an i32.
pub fn fits_i32(wide: i64) -> bool
    ensures { result ≡ ltb (mag wide) (2 ^ 31) }
{
    -2147483648 <= wide && wide <= 2147483647
}

// The point that a move leads to.
pub(crate) fn move_by(p: Point, by: RawPoint) -> Result<Point, Stop>
    ensures { told result ≡ moved_by p by }
{
    let lat = p.lat.0.checked_add(by.lat).ok_or(Stop::OutOfRange)?;
    let lon = p.lon.0.checked_add(by.lon).ok_or(Stop::OutOfRange)?;
    Ok(Point {
        lat: FixedLat(lat),
        lon: FixedLon(lon),
    })
}

// The move back.
pub fn negate(by: RawPoint) -> Result<RawPoint, Stop>
    ensures { told result ≡ negated by }
{
    let lat = by.lat.checked_neg().ok_or(Stop::OutOfRange)?;
    let lon = by.lon.checked_neg().ok_or(Stop::OutOfRange)?;
    Ok(RawPoint { lat, lon })
}

// Whether a move is two zeros.
pub fn is_still(by: RawPoint) -> bool
    ensures { result ≡ is_still by }
{
    by == RawPoint { lat: 0, lon: 0 }
}
