// A border that stays in a field, read quickly. A reader of the verdict may skip this file: it only hurries.
// Stays, point 2: forth and back read by other functions, stop by other tests, and back alone negates; `fours_end` has no twin but in shape.
// Stays, point 7: a file is read plainly or strictly as C asks; the definitions take a Bool, a const parameter would compile it twice.
// Stays, point 5: that a reader has begun and is open is tested once, in `glide_on`; a type for it would be a second `Reader`.
ghost use mathlib.Core.{Path.{◌≡◌}, Bool.{true, false}};
ghost use Rattle.std.specs.Prelude.{◌+◌, ◌-◌, ◌<◌, length};
ghost use Rattle.numbers.specs.Varint.{told, reading_of};
ghost use Rattle.border.specs.Encoding.{encoded_by};
ghost use Rattle.verdict.specs.inner.Gliding.{pointed, Narrow, LedTo, GlidesForth, GlidesBack, GlidesPlain, GlidesTo, standing};

use crate::field::{Field, lies_in};
use border::place::{FixedLat, FixedLon, Point, is_still, negate};
use border::reader::{Encoding, Reader, Run, Version};
use numbers::point::{RawPoint, decode_point, signed};
use numbers::varint::{Number, Stop, read_backward, read_number, read_short};

// A point whose coordinates are held wide, each by itself: a point that is one word is taken apart and put together at every move.
#[derive(Clone, Copy)]
pub(crate) struct Wide {
    pub lat: i64,
    pub lon: i64,
}

fn widen(p: Point) -> Wide
    ensures { (pointed result ≡ p) × Narrow result }
{
    Wide {
        lat: p.lat.0 as i64,
        lon: p.lon.0 as i64,
    }
}

fn narrow(w: Wide) -> Point
    requires { Narrow w }
    ensures { result ≡ pointed w }
{
    Point {
        lat: FixedLat(w.lat as i32),
        lon: FixedLon(w.lon as i32),
    }
}

// Where a move leads inside the field.
fn lead(field: Field, p: Wide, by: RawPoint) -> Option<Wide>
    requires { Narrow p }
    ensures { LedTo field p by result }
{
    let lat = p.lat + (by.lat as i64);
    if !lies_in(field.lat, lat) {
        return None;
    }
    let lon = p.lon + (by.lon as i64);
    if !lies_in(field.lon, lon) {
        return None;
    }
    Some(Wide { lat, lon })
}

// A place of the border, and the point there.
#[derive(Clone, Copy)]
pub(crate) struct Glided {
    pub place: usize,
    pub point: Point,
}

fn glided_at(place: usize, point: Wide) -> Glided
    requires { Narrow point }
    ensures { result ≡ record { place = place; point = pointed point } }
{
    Glided {
        place,
        point: narrow(point),
    }
}

// A number where four bytes stand: nearly every move is a short one.
// Stays parameters: those of `read_number`, for which it stands.
fn read_move(file: &[u8], place: usize, strict: bool) -> Result<Number, Stop>
    requires { place + 3 < length file.now }
    ensures { told result ≡ reading_of strict file.now place }
{
    match read_short(file, place) {
        Ok(number) => Ok(number),
        Err(_) => read_number(file, place, strict),
    }
}

// The end of the places where four bytes stand.
fn fours_end(file: &[u8]) -> usize
    ensures { result ≡ length file.now - 3 }
{
    file.len().saturating_sub(3)
}

// Version 1, outside a reference, but for the last bytes of a file.
// Stays a loop: the place goes on by what was read.
fn glide_forth(file: &[u8], strict: bool, field: Field, start: usize, from: Point) -> Glided
    ensures { GlidesForth file.now strict field start «from» result.place result.point }
{
    let end = fours_end(file);
    let mut place = start;
    let mut point = widen(from);
    while place < end {
        let Ok(number) = read_move(file, place, strict) else {
            return glided_at(place, point);
        };
        if number.value == 0 {
            return glided_at(place, point);
        }
        let Some(to) = lead(field, point, decode_point(number.value)) else {
            return glided_at(place, point);
        };
        place = number.place;
        point = to;
    }
    glided_at(place, point)
}

// Version 1, inside a reference that is read backward, up to its last move.
// Stays a loop: the place goes on by what was read, and the border says where it ends.
fn glide_back(file: &[u8], field: Field, start: usize, end: usize, from: Point) -> Glided
    ensures { GlidesBack file.now field end start «from» result.place result.point }
{
    let mut place = start;
    let mut point = widen(from);
    loop {
        let Ok(number) = read_backward(file, place) else {
            return glided_at(place, point);
        };
        if number.value == 0 {
            return glided_at(place, point);
        }
        if number.place <= end {
            return glided_at(place, point);
        }
        let Ok(by) = negate(decode_point(number.value)) else {
            return glided_at(place, point);
        };
        let Some(to) = lead(field, point, by) else {
            return glided_at(place, point);
        };
        place = number.place;
        point = to;
    }
}

// A place of the border, the moves that are left, and the point there.
#[derive(Clone, Copy)]
pub(crate) struct Counted {
    pub place: usize,
    pub moves: u64,
    pub point: Point,
}

fn counted_at(place: usize, moves: u64, point: Wide) -> Counted
    requires { Narrow point }
    ensures { result ≡ record { place = place; moves = moves; point = pointed point } }
{
    Counted {
        place,
        moves,
        point: narrow(point),
    }
}

// Version 0, up to the closing pair. A move of nothing is left to the reader.
fn glide_plain(
    file: &[u8],
    strict: bool,
    field: Field,
    start: usize,
    count: u64,
    from: Point,
) -> Counted
    ensures { GlidesPlain file.now strict field start count «from» result.place result.moves result.point }
{
    let mut place = start;
    let mut moves = count;
    let mut point = widen(from);
    while 0 < moves {
        let Ok(lat) = read_number(file, place, strict) else {
            return counted_at(place, moves, point);
        };
        let Ok(lon) = read_number(file, lat.place, strict) else {
            return counted_at(place, moves, point);
        };
        let by = RawPoint {
            lat: signed(lat.value),
            lon: signed(lon.value),
        };
        if is_still(by) {
            return counted_at(place, moves, point);
        }
        let Some(to) = lead(field, point, by) else {
            return counted_at(place, moves, point);
        };
        place = lon.place;
        moves -= 1;
        point = to;
    }
    counted_at(place, moves, point)
}

// The state at a place, a run and a point of the border.
fn stand(reader: Reader, place: usize, moves: u64, run: Run, point: Point) -> Reader
    ensures { result ≡ standing reader.first place moves run point }
{
    let first = reader.first;
    Reader {
        place,
        moves,
        begun: true,
        closed: false,
        run,
        point,
        first,
    }
}

// Version 1.
fn glide_packed(file: &[u8], encoding: Encoding, field: Field, reader: Reader) -> Reader
    requires { (reader.begun ≡ true) × (reader.closed ≡ false) }
    ensures { GlidesTo file.now (encoded_by encoding.strict Version.Packed encoding.«data») field reader result }
{
    let run = reader.run;
    let from = reader.point;
    match run {
        Run::Idle => {
            let glided = glide_forth(file, encoding.strict, field, reader.place, from);
            let point = glided.point;
            stand(reader, glided.place, reader.moves, Run::Idle, point)
        }
        Run::Backward { next, end } => {
            let glided = glide_back(file, field, next, end, from);
            let point = glided.point;
            let rest = Run::Backward {
                next: glided.place,
                end,
            };
            stand(reader, reader.place, reader.moves, rest, point)
        }
        Run::Forward { next: _, end: _ } => reader,
    }
}

// Version 0.
fn glide_counted(file: &[u8], encoding: Encoding, field: Field, reader: Reader) -> Reader
    requires { (reader.begun ≡ true) × (reader.closed ≡ false) }
    ensures { GlidesTo file.now (encoded_by encoding.strict Version.Plain encoding.«data») field reader result }
{
    let run = reader.run;
    let Run::Idle = run else {
        return reader;
    };
    let from = reader.point;
    let glided = glide_plain(
        file,
        encoding.strict,
        field,
        reader.place,
        reader.moves,
        from,
    );
    let point = glided.point;
    stand(reader, glided.place, glided.moves, Run::Idle, point)
}

fn glide_within(file: &[u8], encoding: Encoding, field: Field, reader: Reader) -> Reader
    requires { (reader.begun ≡ true) × (reader.closed ≡ false) }
    ensures { GlidesTo file.now encoding field reader result }
{
    let version = encoding.version;
    match version {
        Version::Packed => glide_packed(file, encoding, field, reader),
        Version::Plain => glide_counted(file, encoding, field, reader),
    }
}

// The state after the points that stay in the field, as far as they are read quickly.
pub(crate) fn glide_on(file: &[u8], encoding: Encoding, field: Field, reader: Reader) -> Reader
    ensures { GlidesTo file.now encoding field reader result }
{
    if reader.closed {
        return reader;
    }
    if !reader.begun {
        return reader;
    }
    glide_within(file, encoding, field, reader)
}
