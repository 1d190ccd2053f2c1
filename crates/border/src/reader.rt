// Reading a border's points, one at a time. The state is plain data; the file's bytes and its encoding stand beside it.
// Stays, point 2: forward and backward are no twins: they read by other functions, test otherwise, and backward alone negates.
// Stays, point 7: a file is read plainly or strictly as C asks; the definitions take a Bool, a const parameter would compile it twice.
// Stays, point 5: `Encoding` has what stays the same; a struct of it, the file and the state, made anew each turn, is no plainer.
ghost use Rattle.std.specs.Prelude.{◌≡◌, pos, negsuc};
ghost use Rattle.numbers.specs.{Answer.{found}, Varint.{told, reading_of}};
ghost use Rattle.border.specs.Reader.{onward, arrived, closing, advanced, shown_by, plain_move, plain_pair, plain_turn, data_place, as_i64, opened, reference, marker, forward_from, backward_from, packed_turn, turn_of};
ghost use Rattle.border.specs.{inner.Told.{counted, shown_of, left_by}, Trace.{next_point, border_at}};

use crate::place::{FixedLat, FixedLon, Point, is_still, move_by, negate};
use numbers::point::{RawPoint, decode_point, signed};
use numbers::varint::{Number, Stop, read_backward, read_number};

// How borders are written: version 0 and version 1.
#[derive(Clone, Copy)]
pub enum Version {
    Plain,
    Packed,
}

// The encoding of a file's borders: their version, where the data section begins that references count from, and whether a number that
// the file's end cuts is refused.
#[derive(Clone, Copy)]
pub struct Encoding {
    pub version: Version,
    pub data: u32,
    pub strict: bool,
}

// A reference that is being read: its next place and its end.
#[derive(Clone, Copy)]
pub enum Run {
    Idle,
    Forward { next: usize, end: usize },
    Backward { next: usize, end: usize },
}

#[derive(Clone, Copy)]
pub struct Reader {
    pub place: usize,
    // Version 0: moves that are left; with none left, the closing pair is next.
    pub moves: u64,
    // The first point is known.
    pub begun: bool,
    pub closed: bool,
    pub point: Point,
    pub first: Point,
    // Last: before the points it would leave a gap that each copy of the state carries along.
    pub run: Run,
}

// One turn of the reader's loop, which the definitions of the crates above name. The point that is given is the state's own.
// Stays an enum: three turns, which the definitions have too; a Result of an Option of a pair is no plainer.
#[derive(Clone, Copy)]
pub enum Turn {
    Gives(Reader),
    Again(Reader),
    Ended,
}

// The state at a point that was reached; the first one is kept to close with.
fn arrive(reader: Reader, place: usize, moves: u64, run: Run, point: Point) -> Reader
    ensures { result ≡ arrived (onward reader place moves run) point }
{
    let closed = reader.closed;
    if reader.begun {
        let first = reader.first;
        return Reader {
            place,
            moves,
            begun: true,
            closed,
            run,
            point,
            first,
        };
    }
    Reader {
        place,
        moves,
        begun: true,
        closed,
        run,
        point,
        first: point,
    }
}

// The closing point, which is the first one again.
fn close(reader: Reader, place: usize, moves: u64) -> Reader
    ensures { result ≡ closing (onward reader place moves Run.Idle) }
{
    let first = reader.first;
    Reader {
        place,
        moves,
        begun: reader.begun,
        closed: true,
        run: Run::Idle,
        point: first,
        first,
    }
}

// Version 1: the point moves; `place` and `run` say where reading goes on.
fn advance(reader: Reader, place: usize, run: Run, by: RawPoint) -> Result<Turn, Stop>
    ensures { told result ≡ advanced (onward reader place reader.moves run) by }
{
    let here = reader.point;
    let point = move_by(here, by)?;
    Ok(Turn::Gives(arrive(reader, place, reader.moves, run, point)))
}

// A zero move gives no point, and as the closing pair none either.
fn shown(reader: Reader, by: RawPoint) -> Result<Turn, Stop>
    ensures { told result ≡ found (shown_by by reader) }
{
    if is_still(by) {
        Ok(Turn::Again(reader))
    } else {
        Ok(Turn::Gives(reader))
    }
}

// Version 0: a move, which counts; past the last one the closing point.
fn plain_move(reader: Reader, place: usize, moves: u64, by: RawPoint) -> Result<Turn, Stop>
    ensures { told result ≡ plain_move (onward reader place moves Run.Idle) by }
{
    if moves == 0 {
        return shown(close(reader, place, moves), by);
    }
    let here = reader.point;
    let point = move_by(here, by)?;
    shown(arrive(reader, place, moves - 1, Run::Idle, point), by)
}

// Version 0: the two signed numbers of a move or of the closing pair.
fn plain_pair(
    file: &[u8],
    strict: bool,
    reader: Reader,
    place: usize,
    moves: u64,
) -> Result<Turn, Stop>
    ensures { told result ≡ plain_pair (reading_of strict file.now) (onward reader place moves Run.Idle) }
{
    let lat = read_number(file, place, strict)?;
    let lon = read_number(file, lat.place, strict)?;
    let by = RawPoint {
        lat: signed(lat.value),
        lon: signed(lon.value),
    };
    plain_move(reader, lon.place, moves, by)
}

// Version 0: the moves that are left, and where the next pair stands. The count comes before the first move.
fn moves_left(file: &[u8], strict: bool, reader: Reader) -> Result<Number, Stop>
    ensures { told result ≡ counted (reading_of strict file.now) reader }
{
    let place = reader.place;
    if reader.begun {
        return Ok(Number {
            value: reader.moves,
            place,
        });
    }
    let count = read_number(file, place, strict)?;
    if count.value == 0 {
        return Err(Stop::Failed);
    }
    Ok(count)
}

// The one call of `plain_pair`: with a second one it would not be compiled in line.
fn plain_turn(file: &[u8], strict: bool, reader: Reader) -> Result<Turn, Stop>
    ensures { told result ≡ plain_turn (reading_of strict file.now) reader }
{
    let moves = moves_left(file, strict, reader)?;
    plain_pair(file, strict, reader, moves.place, moves.value)
}

// The place `n` bytes into the data section, modulo 2^32.
fn data_place(base: u32, n: u64) -> usize
    ensures { result ≡ data_place base (pos n) }
{
    ((base as u64 + n % 0x1_0000_0000) % 0x1_0000_0000) as usize
}

// A reference of `size` bytes; 0 opens none.
fn open_forward(base: u32, start: u64, size: u32) -> Result<Run, Stop>
    ensures { told result ≡ opened base (as_i64 start) (pos size) }
{
    if size == 0 {
        return Ok(Run::Idle);
    }
    if start < 0x8000_0000_0000_0000 {
        if 0x8000_0000_0000_0000 <= start + size as u64 {
            return Err(Stop::OutOfRange);
        }
    }
    let next = data_place(base, start);
    let end = data_place(base, start % 0x1_0000_0000 + size as u64);
    Ok(Run::Forward { next, end })
}

// A backward reference of `more` and one bytes; it starts and ends one byte lower.
fn open_backward(base: u32, start: u64, more: u32) -> Result<Run, Stop>
    ensures { told result ≡ opened base (as_i64 start) (negsuc more) }
{
    if 0x8000_0000_0000_0000 <= start {
        if start - 0x8000_0000_0000_0000 <= more as u64 {
            return Err(Stop::OutOfRange);
        }
    }
    let before = start % 0x1_0000_0000 + 0xffff_ffff;
    let next = data_place(base, before);
    let end = data_place(base, before + (0xffff_ffff - more) as u64);
    Ok(Run::Backward { next, end })
}

fn open_run(base: u32, start: u64, length: i32) -> Result<Run, Stop>
    ensures { told result ≡ opened base (as_i64 start) length }
{
    if length < 0 {
        open_backward(base, start, (-1 - length) as u32)
    } else {
        open_forward(base, start, length as u32)
    }
}

// Version 1, after 0 and 1.
fn open_reference(
    file: &[u8],
    base: u32,
    strict: bool,
    reader: Reader,
    place: usize,
) -> Result<Turn, Stop>
    ensures { told result ≡ reference (reading_of strict file.now) base (onward reader place reader.moves Run.Idle) }
{
    let start = read_number(file, place, strict)?;
    let length = read_number(file, start.place, strict)?;
    let run = open_run(base, start.value, signed(length.value))?;
    Ok(Turn::Again(go_on(reader, length.place, run)))
}

// Reading goes on at a place, in a run.
fn go_on(reader: Reader, place: usize, run: Run) -> Reader
    ensures { result ≡ onward reader place reader.moves run }
{
    let point = reader.point;
    let first = reader.first;
    Reader {
        place,
        moves: reader.moves,
        begun: reader.begun,
        closed: reader.closed,
        run,
        point,
        first,
    }
}

// Version 1, after 0.
fn read_marker(
    file: &[u8],
    base: u32,
    strict: bool,
    reader: Reader,
    place: usize,
) -> Result<Turn, Stop>
    ensures { told result ≡ marker (reading_of strict file.now) base (onward reader place reader.moves Run.Idle) }
{
    let mark = read_number(file, place, strict)?;
    if mark.value == 0 {
        return Ok(Turn::Gives(close(reader, mark.place, reader.moves)));
    }
    if mark.value == 1 {
        return open_reference(file, base, strict, reader, mark.place);
    }
    let here = reader.point;
    Ok(Turn::Gives(arrive(reader, mark.place, reader.moves, Run::Idle, here)))
}

// Version 1, outside a reference.
fn read_move(file: &[u8], base: u32, strict: bool, reader: Reader) -> Result<Turn, Stop>
    ensures { told result ≡ packed_turn Run.Idle (reading_of strict file.now) file.now base reader }
{
    let place = reader.place;
    let number = read_number(file, place, strict)?;
    if number.value == 0 {
        return read_marker(file, base, strict, reader, number.place);
    }
    advance(reader, number.place, Run::Idle, decode_point(number.value))
}

// What is left of a reference.
fn forward_from(next: usize, end: usize) -> Run
    ensures { result ≡ forward_from next end }
{
    if end <= next {
        Run::Idle
    } else {
        Run::Forward { next, end }
    }
}

fn backward_from(next: usize, end: usize) -> Run
    ensures { result ≡ backward_from next end }
{
    if next <= end {
        Run::Idle
    } else {
        Run::Backward { next, end }
    }
}

// Version 1, inside a reference that is read forward.
fn run_forward(
    file: &[u8],
    base: u32,
    strict: bool,
    reader: Reader,
    next: usize,
    end: usize,
) -> Result<Turn, Stop>
    ensures { told result ≡ packed_turn (Run.Forward next end) (reading_of strict file.now) file.now base reader }
{
    let ahead = read_number(file, next, strict)?;
    if ahead.value == 0 {
        return Err(Stop::Failed);
    }
    let run = forward_from(ahead.place, end);
    advance(reader, reader.place, run, decode_point(ahead.value))
}

// Version 1, inside a reference that is read backward.
fn run_backward(
    file: &[u8],
    base: u32,
    strict: bool,
    reader: Reader,
    next: usize,
    end: usize,
) -> Result<Turn, Stop>
    ensures { told result ≡ packed_turn (Run.Backward next end) (reading_of strict file.now) file.now base reader }
{
    let behind = read_backward(file, next)?;
    if behind.value == 0 {
        return Err(Stop::Failed);
    }
    let by = negate(decode_point(behind.value))?;
    advance(reader, reader.place, backward_from(behind.place, end), by)
}

fn packed_turn(file: &[u8], base: u32, strict: bool, reader: Reader) -> Result<Turn, Stop>
    ensures { told result ≡ packed_turn reader.run (reading_of strict file.now) file.now base reader }
{
    let run = reader.run;
    match run {
        Run::Idle => read_move(file, base, strict, reader),
        Run::Forward { next, end } => run_forward(file, base, strict, reader, next, end),
        Run::Backward { next, end } => run_backward(file, base, strict, reader, next, end),
    }
}

fn turn_once(file: &[u8], encoding: Encoding, reader: Reader) -> Result<Turn, Stop>
    ensures { told result ≡ turn_of encoding.strict file.now encoding.version encoding.«data» reader }
{
    if reader.closed {
        return Ok(Turn::Ended);
    }
    let version = encoding.version;
    match version {
        Version::Packed => packed_turn(file, encoding.data, encoding.strict, reader),
        Version::Plain => plain_turn(file, encoding.strict, reader),
    }
}

// The state at the next point of a border, which is its own; None at the border's end. The file's bytes and its encoding are the same from point to point.
// Stays a loop: a turn may give nothing, and the next one goes on from what it read.
pub fn next_point(file: &[u8], encoding: Encoding, reader: Reader) -> Result<Option<Reader>, Stop>
    ensures { told result ≡ next_point file.now encoding reader }
{
    let mut state = reader;
    loop {
        match turn_once(file, encoding, state)? {
            Turn::Again(later) => state = later,
            Turn::Gives(later) => return Ok(Some(later)),
            Turn::Ended => return Ok(None),
        }
    }
}

// A border that is about to be read at a place of the file.
pub fn open_border(place: usize) -> Reader
    ensures { result ≡ border_at place }
{
    let origin = Point {
        lat: FixedLat(0),
        lon: FixedLon(0),
    };
    Reader {
        place,
        moves: 0,
        begun: false,
        closed: false,
        run: Run::Idle,
        point: origin,
        first: origin,
    }
}

// The thin form: the next point, to which the lent state goes on. The end, a failure and a refusal leave the state as it was.
pub fn reader_get_point(
    file: &[u8],
    encoding: Encoding,
    reader: &mut Reader,
) -> Result<Option<Point>, Stop>
    ensures { (told result ≡ shown_of (next_point file.now encoding reader.old))
        × (reader.new ≡ left_by reader.old (next_point file.now encoding reader.old)) }
{
    let Some(later) = next_point(file, encoding, *reader)? else {
        return Ok(None);
    };
    *reader = later;
    Ok(Some(later.point))
}
