// A match's zone name: where its two parts stand in the map, and whether two are the same.
ghost use Rattle.std.specs.Prelude.{◌≡◌, ◌≤◌, length, get_or, IfOk};
ghost use Rattle.request.specs.Told.{shown};
ghost use Rattle.slip.specs.{Hour.{name_of}, Told.{name_in}};
ghost use Rattle.zones.specs.Simple.{same, LiesParts};

use header::header::Head;
use numbers::fault::Fault;
use numbers::refusal::Refusal;
use zones::simple::{Parts, name_of};

// 87 where the map is not one of time zones, or has not both names.
pub(crate) fn zone_of(map: &[u8], head: Head, metadata: u32) -> Result<Parts, Refusal>
    ensures { (shown result (name_in map.now) ≡ name_of map.now head metadata) × IfOk result (LiesParts (length map.now)) }
{
    let preamble = head.preamble;
    if preamble.kind != b'T' {
        return Err(Fault::NoNames.alone());
    }
    let named = name_of(map, head, metadata)?;
    named.ok_or(Fault::NoNames.alone())
}

// How many bytes it has.
fn size_of(map: &[u8], name: Parts) -> usize
    requires { LiesParts (length map.now) name }
    ensures { result ≡ length (name_in map.now name) }
{
    let one = name.one;
    let two = name.two;
    one.size + two.size
}

// A byte of the name; 0 behind it.
fn byte_of(map: &[u8], name: Parts, at: usize) -> u8
    requires { LiesParts (length map.now) name }
    ensures { result ≡ get_or (name_in map.now name) at 0 }
{
    let one = name.one;
    let two = name.two;
    let first = one.start;
    let size = one.size;
    if at < size {
        return map[first + at] ^ 0x80;
    }
    let rest = at - size;
    let second = two.start;
    if rest < two.size {
        return map[second + rest] ^ 0x80;
    }
    0
}

// Whether two names are the same, however each is parted.
// Stays by hand: each name stands in two parts under a mask, so there is no slice to compare.
pub(crate) fn is_same(map: &[u8], name: Parts, other: Parts) -> bool
    requires { LiesParts (length map.now) name × LiesParts (length map.now) other }
    ensures { result ≡ same (name_in map.now name) (name_in map.now other) }
{
    let size = size_of(map, name);
    if size != size_of(map, other) {
        return false;
    }
    // Each name stands in two parts under a mask, so there is no slice to compare.
    for i in 0..size {
        if byte_of(map, name, i) != byte_of(map, other, i) {
            return false;
        }
    }
    true
}
