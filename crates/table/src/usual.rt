// Boxes whose four bounds have three bytes each, as nearly all have on a fine map: each byte then stands at a known place, and of a latitude
// the first byte, which has its sign, and the last one nearly always tell on which side of the location it lies. A reader of the search may skip
// this file: it only hurries.
ghost use mathlib.Core.{Path.{◌≡◌}, Bool.{true}};
ghost use Rattle.std.specs.Prelude.{◌+◌, ◌<◌};
ghost use lib.{ListN.{length}, Signed.{le_z}};
ghost use Rattle.numbers.specs.Point.{signed_of};
ghost use Rattle.table.specs.inner.Usual.{long_at, GoesOn, Ends, Others, FourLong, usual_bounds, Under, Over};

use crate::table::{Bounds, bounds_of, lat_below};
use border::place::{FixedLat, Point};
use numbers::point::signed;

fn wide(byte: u8) -> u64
    ensures { (result ≡ byte) × (result < 256) }
{
    byte as u64
}

// Whether the first two bytes at a place say that another follows.
fn goes_on(file: &[u8], place: usize) -> bool
    requires { place + 1 < length file.now }
    ensures { result ≡ true → GoesOn file.now place }
{
    let low = wide(file[place]);
    let middle = wide(file[place + 1]);
    128 <= low && 128 <= middle
}

// Whether the third byte says that none does.
fn ends(file: &[u8], place: usize) -> bool
    requires { place + 2 < length file.now }
    ensures { result ≡ true → Ends file.now place }
{
    let high = wide(file[place + 2]);
    high < 128
}

fn others_go_on(file: &[u8], place: usize) -> bool
    requires { place + 11 < length file.now }
    ensures { result ≡ true → Others (GoesOn file.now) place }
{
    let west = goes_on(file, place + 3);
    let north = goes_on(file, place + 6);
    let east = goes_on(file, place + 9);
    west && (north && east)
}

fn others_end(file: &[u8], place: usize) -> bool
    requires { place + 11 < length file.now }
    ensures { result ≡ true → Others (Ends file.now) place }
{
    let west = ends(file, place + 3);
    let north = ends(file, place + 6);
    let east = ends(file, place + 9);
    west && (north && east)
}

// Whether four numbers of three bytes each begin at a place. On a coarse map the first one tells. The other bytes are all read before any is
// tested: such tests are joined when they are compiled.
fn are_long(file: &[u8], place: usize) -> bool
    requires { place + 11 < length file.now }
    ensures { result ≡ true → FourLong file.now place }
{
    if !goes_on(file, place) {
        return false;
    }
    let first = ends(file, place);
    let more = others_go_on(file, place);
    let over = others_end(file, place);
    first && (more && over)
}

// The number of three bytes.
fn long_at(file: &[u8], place: usize) -> u64
    requires { place + 2 < length file.now }
    ensures { result ≡ long_at file.now place }
{
    let low = wide(file[place]);
    let middle = wide(file[place + 1]);
    let high = wide(file[place + 2]);
    low % 128 + 128 * (middle % 128 + 128 * high)
}

// The bounds of such a box.
pub(crate) fn bounds_at(file: &[u8], place: usize) -> Bounds
    requires { place + 11 < length file.now }
    ensures { result ≡ usual_bounds file.now place }
{
    let south = long_at(file, place);
    let west = long_at(file, place + 3);
    let north = long_at(file, place + 6);
    let east = long_at(file, place + 9);
    bounds_of(south, west, north, east)
}

// No latitude with this first and this last byte is higher.
// Stays apart from `lowest`: other constants, and the bound is on the other side.
fn highest(file: &[u8], place: usize) -> FixedLat
    requires { place + 2 < length file.now }
    ensures { le_z (signed_of (long_at file.now place)) result.0 ≡ true }
{
    let low = wide(file[place]);
    let high = wide(file[place + 2]);
    if low % 2 == 0 {
        return FixedLat(signed(16384 * high + 16382));
    }
    FixedLat(signed(16384 * high + 1))
}

// None is lower.
// Stays apart from `highest`: other constants, and the bound is on the other side.
fn lowest(file: &[u8], place: usize) -> FixedLat
    requires { place + 2 < length file.now }
    ensures { le_z result.0 (signed_of (long_at file.now place)) ≡ true }
{
    let low = wide(file[place]);
    let high = wide(file[place + 2]);
    if low % 2 == 0 {
        return FixedLat(signed(16384 * high));
    }
    FixedLat(signed(16384 * high + 16383))
}

// Whether such a box is seen to lie below the location.
// Stays apart from `is_over`: it asks for both latitudes.
pub(crate) fn is_under(file: &[u8], place: usize, fix: Point) -> bool
    requires { place + 11 < length file.now }
    ensures { result ≡ true → Under file.now place fix }
{
    if !are_long(file, place) {
        return false;
    }
    if lat_below(fix.lat, highest(file, place)) {
        return false;
    }
    lat_below(highest(file, place + 6), fix.lat)
}

// Whether it is seen to lie above.
// Stays apart from `is_under`: it asks for the lower latitude alone.
pub(crate) fn is_over(file: &[u8], place: usize, fix: Point) -> bool
    requires { place + 11 < length file.now }
    ensures { result ≡ true → Over file.now place fix }
{
    if !are_long(file, place) {
        return false;
    }
    lat_below(fix.lat, lowest(file, place))
}
