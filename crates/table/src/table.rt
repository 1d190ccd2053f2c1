// The box table: each entry's bounds, and the steps of its metadata id and of its border's place.
// Stays, point 7: a file is read plainly or strictly as C asks; the definitions take a Bool, a const parameter would compile it twice.
// Stays, point 5: a struct of file, place and strictness, made for each number that is read, is no plainer.
ghost use Rattle.std.specs.Prelude.{◌≡◌, int_le, int_lt};
ghost use Rattle.numbers.specs.Varint.{told, reading_of};
ghost use Rattle.table.specs.Table.{bounded_by, entry_by, steps_by, bounds_of, is_above, holds};
ghost use Rattle.border.specs.Box.{between};

use border::place::{FixedLat, FixedLon, Point};
use numbers::point::signed;
use numbers::varint::{Stop, read_number};

#[derive(Clone, Copy)]
pub struct Bounds {
    pub min_lat: FixedLat,
    pub min_lon: FixedLon,
    pub max_lat: FixedLat,
    pub max_lon: FixedLon,
}

// A box, and where its bounds end.
#[derive(Clone, Copy)]
pub(crate) struct Bounded {
    pub(crate) bounds: Bounds,
    pub(crate) next: usize,
}

#[derive(Clone, Copy)]
pub struct Entry {
    pub bounds: Bounds,
    // The step of the metadata id, a signed number as it was read, and that of the border's place.
    pub metadata: u64,
    pub polygon: u64,
    // Where the next entry begins.
    pub next: usize,
}

// The entry's last two numbers, after its bounds.
fn steps_at(file: &[u8], strict: bool, place: usize, bounds: Bounds) -> Result<Entry, Stop>
    ensures { told result ≡ steps_by (reading_of strict file.now) place bounds }
{
    let metadata = read_number(file, place, strict)?;
    let polygon = read_number(file, metadata.place, strict)?;
    Ok(Entry {
        bounds,
        metadata: metadata.value,
        polygon: polygon.value,
        next: polygon.place,
    })
}

// The four bounds of the box at a place.
pub(crate) fn bounded_at(file: &[u8], place: usize, strict: bool) -> Result<Bounded, Stop>
    ensures { told result ≡ bounded_by (reading_of strict file.now) place }
{
    let min_lat = read_number(file, place, strict)?;
    let min_lon = read_number(file, min_lat.place, strict)?;
    let max_lat = read_number(file, min_lon.place, strict)?;
    let max_lon = read_number(file, max_lat.place, strict)?;
    let bounds = bounds_of(min_lat.value, min_lon.value, max_lat.value, max_lon.value);
    Ok(Bounded {
        bounds,
        next: max_lon.place,
    })
}

// All six numbers are read before any is tested.
pub fn entry_at(file: &[u8], place: usize, strict: bool) -> Result<Entry, Stop>
    ensures { told result ≡ entry_by (reading_of strict file.now) place }
{
    let bounded = bounded_at(file, place, strict)?;
    steps_at(file, strict, bounded.next, bounded.bounds)
}

pub fn bounds_of(min_lat: u64, min_lon: u64, max_lat: u64, max_lon: u64) -> Bounds
    ensures { result ≡ bounds_of min_lat min_lon max_lat max_lon }
{
    Bounds {
        min_lat: FixedLat(signed(min_lat)),
        min_lon: FixedLon(signed(min_lon)),
        max_lat: FixedLat(signed(max_lat)),
        max_lon: FixedLon(signed(max_lon)),
    }
}

fn lat_upto(a: FixedLat, b: FixedLat) -> bool
    ensures { result ≡ int_le a.0 b.0 }
{
    a.0 <= b.0
}

fn lon_upto(a: FixedLon, b: FixedLon) -> bool
    ensures { result ≡ int_le a.0 b.0 }
{
    a.0 <= b.0
}

pub fn lat_below(a: FixedLat, b: FixedLat) -> bool
    ensures { result ≡ int_lt a.0 b.0 }
{
    a.0 < b.0
}

// Whether the lower latitude is above the location.
pub fn is_above(bounds: Bounds, fix: Point) -> bool
    ensures { result ≡ is_above bounds fix }
{
    lat_below(fix.lat, bounds.min_lat)
}

fn lat_between(low: FixedLat, lat: FixedLat, high: FixedLat) -> bool
    ensures { result ≡ between low.0 lat.0 high.0 }
{
    if lat_upto(low, lat) {
        return lat_upto(lat, high);
    }
    false
}

pub(crate) fn lon_between(low: FixedLon, lon: FixedLon, high: FixedLon) -> bool
    ensures { result ≡ between low.0 lon.0 high.0 }
{
    if lon_upto(low, lon) {
        return lon_upto(lon, high);
    }
    false
}

// Whether the box holds the location.
pub fn holds(bounds: Bounds, fix: Point) -> bool
    ensures { result ≡ holds bounds fix }
{
    if lat_between(bounds.min_lat, fix.lat, bounds.max_lat) {
        return lon_between(bounds.min_lon, fix.lon, bounds.max_lon);
    }
    false
}
