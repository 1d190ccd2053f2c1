// A sentence: RMC of NMEA 0183.
// Stays, point 2: `time_in` and `date_in` are two lines each, of another field and reading; `star_of` has no twin but in shape.
// Stays, point 6: `n` is a field's number, and no list's length.
ghost use Rattle.std.specs.Prelude.{◌≡◌, ◌+◌, ◌≤◌, ◌<◌, length, get_or, drop, IfOk};
ghost use Rattle.request.specs.{Text.{behind, field, formed}, Number.{nearest_to}, Clock.{time_of, date_of, day_of, second_of}};
ghost use Rattle.request.specs.{Request.{is_hex, is_sealed, is_address, is_rmc, is_known, is_mode, place_of, in_field, turned, fix_of, fields_of, star_of, sentence_of, meaning}, Told.{shown}};

use crate::clock::{date, instant_of, time};
use crate::degrees::{angle, side};
use crate::fraction::nearest_to;
use crate::read::Fix;
use crate::text::{count, every, find, formed, xors};
use numbers::fault::Fault;
use numbers::refusal::Refusal;

// A hexadecimal digit, of either case.
fn is_hex(n: u8, byte: u8) -> bool
    requires { n < 16 }
    ensures { result ≡ is_hex n byte }
{
    if n < 10 {
        byte == b'0' + n
    } else {
        byte == b'A' + (n - 10) || byte == b'a' + (n - 10)
    }
}

// The checksum is right, and there is one star.
fn sealed(line: &[u8]) -> bool
    requires { get_or line.now 0 0 ≡ 36 }
    ensures { result ≡ is_sealed line.now }
{
    let star = star_of(line);
    if star < 1 {
        return false;
    }
    if line[star] != b'*' {
        return false;
    }
    if count(line, b'*') != 1 {
        return false;
    }
    let sum = xors(&line[1..star]);
    if !is_hex(sum / 16, line[star + 1]) {
        return false;
    }
    is_hex(sum % 16, line[star + 2])
}

// Where a field begins; the end where there is none.
fn field_start(body: &[u8], n: usize) -> usize
    ensures { (drop result body.now ≡ behind n body.now) × (result ≤ length body.now) }
{
    let mut at: usize = 0;
    for _ in 0..n {
        let comma = find(body, at, b',', b',');
        if comma == body.len() {
            return comma;
        }
        at = comma + 1;
    }
    at
}

// A field of a body, and its place in the line, where the body stands behind the `$`.
#[derive(Clone, Copy)]
struct Placed<'a> {
    text: &'a [u8],
    place: usize,
}

fn field(body: &[u8], n: usize) -> Placed
    requires { length body.now < 256 }
    ensures { (result.text.now ≡ field n body.now) × (result.place ≡ place_of n body.now) }
{
    let from = field_start(body, n);
    let to = find(body, from, b',', b',');
    Placed {
        text: &body[from..to],
        place: 1 + from,
    }
}

fn is_address(text: &[u8]) -> bool
    ensures { result ≡ is_address text.now }
{
    2 <= text.len() && text.len() <= 8 && every(text, true)
}

// Two bytes and then RMC.
fn is_rmc(text: &[u8]) -> bool
    ensures { result ≡ is_rmc text.now }
{
    2 <= text.len() && formed(b"RMC", &text[2..])
}

// The modes of a fix that was measured.
fn is_known(mode: u8) -> bool
    ensures { result ≡ is_known mode }
{
    mode == b'A' || mode == b'D' || mode == b'F' || mode == b'P' || mode == b'R'
}

fn is_mode(text: &[u8]) -> bool
    ensures { result ≡ is_mode text.now }
{
    match text {
        [] => true,
        [byte] => is_known(*byte),
        _ => false,
    }
}

fn time_in(body: &[u8]) -> Result<u64, Refusal>
    requires { length body.now < 256 }
    ensures { (result ≡ shown (in_field 1 body.now time_of) second_of) × IfOk result (λ n. n < 86400) }
{
    let said = field(body, 1);
    time(said.text, said.place)
}

fn date_in(body: &[u8]) -> Result<u64, Refusal>
    requires { length body.now < 256 }
    ensures { (result ≡ shown (in_field 9 body.now date_of) day_of) × IfOk result (λ n. n < 3652059) }
{
    let said = field(body, 9);
    date(said.text, said.place)
}

// A size in one field and its side in the next.
fn turned_in(
    body: &[u8],
    n: usize,
    width: usize,
    limit: u64,
    plus: u8,
    minus: u8,
) -> Result<f32, Refusal>
    requires { (length body.now < 256) × (n < 10) × (width ≤ 3) × (limit ≤ 180) }
    ensures { result ≡ shown (turned n width limit plus minus body.now) nearest_to }
{
    let first = field(body, n);
    let size = angle(first.text, width, limit, first.place)?;
    let second = field(body, n + 1);
    let south = side(second.text, plus, minus, second.place)?;
    Ok(nearest_to(south, size.num, size.den))
}

// 5 to 8: time, places and date.
fn fix(body: &[u8]) -> Result<Fix, Refusal>
    requires { length body.now < 256 }
    ensures { result ≡ shown (fix_of body.now) meaning }
{
    let second = time_in(body)?;
    let lat = turned_in(body, 3, 2, 90, b'N', b'S')?;
    let lon = turned_in(body, 5, 3, 180, b'E', b'W')?;
    let day = date_in(body)?;
    let instant = instant_of(day, second);
    Ok(Fix { lat, lon, instant })
}

// The address, how many fields there are, status and mode; then the fields.
fn fields(body: &[u8], star: usize) -> Result<Fix, Refusal>
    requires { length body.now < 256 }
    ensures { result ≡ shown (fields_of body.now star) meaning }
{
    let address = field(body, 0);
    if !is_address(address.text) {
        return Err(Fault::NotRequest.at(1));
    }
    if !is_rmc(address.text) {
        return Err(Fault::OtherSentence.alone());
    }
    if count(body, b',') < 9 {
        return Err(Fault::NotRequest.at(star));
    }
    let status = field(body, 2);
    if formed(b"V", status.text) {
        return Err(Fault::NoFix.alone());
    }
    if !formed(b"A", status.text) {
        return Err(Fault::NotRequest.at(status.place));
    }
    if !is_mode(field(body, 12).text) {
        return Err(Fault::NoFix.alone());
    }
    fix(body)
}

// Where the star is looked for.
fn star_of(line: &[u8]) -> usize
    ensures { result ≡ star_of line.now }
{
    line.len().saturating_sub(3)
}

pub(crate) fn sentence(line: &[u8]) -> Result<Fix, Refusal>
    requires { (length line.now < 256) × (get_or line.now 0 0 ≡ 36) }
    ensures { result ≡ shown (sentence_of line.now) meaning }
{
    let star = star_of(line);
    if !sealed(line) {
        return Err(Fault::BadChecksum.at(star));
    }
    fields(&line[1..star], star)
}
