// What a TZ string gives as a local time, and whether it is the same as another.
ghost use Rattle.std.specs.Prelude.{◌≡◌, ◌+◌, ◌≤◌, length};
ghost use Rattle.localtime.specs.Found.{east_of, found_of, Short, same_octets, same_found};
ghost use Rattle.tzif.specs.Local.{Held};

use tzif::local::Found;
use tzrule::ask::Time;

// Seconds east of UT, of seconds west more 604800.
// Stays a function: the definitions' word, from one way of counting to another.
fn east_of(west: u64) -> i32
    requires { west ≤ 1209600 }
    ensures { result ≡ east_of west }
{
    let east = 604800 - west as i64;
    east as i32
}

// The local time of a clock, its name where it stands in the file.
pub(crate) fn found_of(time: Time) -> Found
    requires { Short time }
    ensures { result ≡ found_of time }
{
    let clock = time.clock;
    let name = clock.name;
    let offset = east_of(clock.west);
    Found {
        offset,
        daylight: time.daylight,
        place: name.start,
        length: name.end - name.start,
    }
}

// Whether so many octets from two places on are equal.
fn same_octets(file: &[u8], a: usize, b: usize, count: usize) -> bool
    requires { (a + count ≤ length file.now) × (b + count ≤ length file.now) }
    ensures { result ≡ same_octets file.now a b count }
{
    file[a..a + count] == file[b..b + count]
}

// Whether two local times have the same offset, flag and abbreviation.
// Stays by hand: the names are compared by their octets, not by their places.
pub(crate) fn same_found(file: &[u8], a: Found, b: Found) -> bool
    requires { Held (length file.now) a × Held (length file.now) b }
    ensures { result ≡ same_found file.now a b }
{
    if a.offset != b.offset {
        return false;
    }
    if a.daylight != b.daylight {
        return false;
    }
    if a.length != b.length {
        return false;
    }
    same_octets(file, a.place, b.place, a.length)
}
