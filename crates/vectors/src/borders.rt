// The recorded answers of the point reader and of the verdict, a line each:
// `border VERSION DATAOFFSET PLACE LAT LON ASK LEAST FILE > points ok|failed LAT,LON .. > verdict V LEAST`.
// In place of either part may stand `refused N 0`; the points up to a refusal are not listed.
// Stays, point 5: a word's place is a small number or the end of a list; a type for it would be made at each call.
ghost use Rattle.std.specs.Prelude.{◌<◌, IfSome};

use crate::leaf::{is_integer, number_of, small_integer};
use crate::text::{bytes, decimal, is_decimal, word};
use border::place::{FixedLat, FixedLon, Point};
use border::reader::{Encoding, Version, next_point, open_border};
use numbers::varint::Stop;
use verdict::judge::point_in_polygon;
use verdict::step::Verdict;

// More points than any line has.
const MOST: usize = 122;

// Where the answer of the reader stands.
const READ: usize = 10;

fn version_of(line: &[u8]) -> Version {
    if decimal(word(line, 1)) == 0 {
        return Version::Plain;
    }
    Version::Packed
}

fn encoding_of(line: &[u8]) -> Encoding {
    Encoding {
        version: version_of(line),
        data: (decimal(word(line, 2)) % 0x1_0000_0000) as u32,
        strict: false,
    }
}

// Word k and the one behind it.
fn is_refused(line: &[u8], k: usize, number: u64) -> bool
    requires { k < 1001 }
{
    word(line, k) == b"refused".as_slice() && is_decimal(word(line, k + 1), number)
}

// Whether word k and the one behind it are a point; a line that is refused lists none.
fn is_listed(line: &[u8], k: usize, point: Point) -> bool
    requires { k < 1000 }
{
    word(line, READ) == b"refused".as_slice()
        || is_integer(line, k, point.lat.0) && is_integer(line, k + 1, point.lon.0)
}

// Word k, if the points before it are all, and reading ended so.
fn end_if(line: &[u8], k: usize, how: &[u8]) -> Option<usize>
    requires { k < 1000 }
    ensures { IfSome result (λ k. k < 1000) }
{
    if word(line, READ + 1) == how && word(line, k) == b">".as_slice() {
        return Some(k);
    }
    None
}

// The word `>` behind a refusal.
fn end_refused(line: &[u8], stop: Stop) -> Option<usize>
    ensures { IfSome result (λ k. k < 1000) }
{
    if is_refused(line, READ, number_of(stop)) {
        return Some(READ + 3);
    }
    None
}

// The word `>` behind the points, or none where the reader gives other points or another end.
fn points_end(line: &[u8], file: &[u8], place: usize) -> Option<usize>
    ensures { IfSome result (λ k. k < 1000) }
{
    let encoding = encoding_of(line);
    let mut reader = open_border(place);
    for i in 0..MOST {
        let k = READ + 2 + 2 * i;
        let later = match next_point(file, encoding, reader) {
            Ok(Some(later)) => later,
            Ok(None) => return end_if(line, k, b"ok"),
            Err(Stop::Failed) => return end_if(line, k, b"failed"),
            Err(stop) => return end_refused(line, stop),
        };
        if !is_listed(line, k, later.point) {
            return None;
        }
        reader = later;
    }
    None
}

// Stays by hand: the numbers are the recorded ones, and the enum is another crate's.
fn kind_of(verdict: Verdict) -> u64 {
    match verdict {
        Verdict::NotInZone => 1,
        Verdict::InZone => 2,
        Verdict::InExcludedZone => 3,
        Verdict::OnBorderVertex => 4,
        Verdict::OnBorderSegment => 5,
    }
}

fn is_verdict(line: &[u8], k: usize, verdict: u64, least: u64) -> bool
    requires { k < 1000 }
{
    is_decimal(word(line, k + 2), verdict) && is_decimal(word(line, k + 3), least)
}

fn verdict_right(line: &[u8], k: usize, file: &[u8], place: usize) -> bool
    requires { k < 1000 }
{
    let lat = FixedLat(small_integer(word(line, 4)));
    let lon = FixedLon(small_integer(word(line, 5)));
    let asked = decimal(word(line, 6)) == 1;
    let least = decimal(word(line, 7));
    match point_in_polygon(file, encoding_of(line), place, lat, lon, asked, least) {
        Ok(judged) => is_verdict(line, k, judged.verdict.map_or(0, kind_of), judged.least),
        Err(fault) => is_refused(line, k + 1, u64::from(fault.number())),
    }
}

// Stays an array: of the longest line's bytes; a Vec could fail.
pub fn border(line: &[u8]) -> bool {
    let mut space = [0u8; 128];
    let size = bytes(word(line, 8), &mut space);
    let place = decimal(word(line, 3)) as usize;
    match points_end(line, &space[..size], place) {
        Some(k) => verdict_right(line, k, &space[..size], place),
        None => false,
    }
}
