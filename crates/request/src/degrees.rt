// Latitudes and longitudes of a request.
ghost use Rattle.std.specs.Prelude.{◌≡◌, ◌+◌, ◌*◌, ◌^◌, ◌≤◌, ◌<◌, length, get_or, drop, IfOk};
ghost use Rattle.request.specs.{Number.{value_from, unsigned, angle_of, side_of, decimal_of, degrees_of, nearest_to}, Request.{at}, Told.{shown, limited_to, IsSize}};

use crate::fraction::nearest_to;
use crate::number::{Digits, has_form, part, value};
use crate::text::{find, formed};
use numbers::fault::Fault;
use numbers::refusal::Refusal;

// A size: num / den.
#[derive(Clone, Copy)]
pub struct Ratio {
    pub num: u64,
    pub den: u64,
}

// The digits from a place on, behind those that made a number; there may be none.
fn decimals(text: &[u8], from: usize, start: u64) -> Digits
    requires { (start < 1000) × (length text.now ≤ from + 9) }
    ensures { result ≡ record { value = value_from start (drop from text.now); scale = 10 ^ length (drop from text.now) } }
{
    if text.len() <= from {
        return Digits {
            value: start,
            scale: 1,
        };
    }
    value(start, &text[from..])
}

// At most so many degrees.
fn limited(num: u64, den: u64, limit: u64, place: usize) -> Result<Ratio, Refusal>
    requires { (1 ≤ den) × (den ≤ 60000000000) × (limit ≤ 180) }
    ensures { (result ≡ at place (limited_to limit num den)) × IfOk result IsSize }
{
    if limit * den < num {
        return Err(Fault::NoPlace.at(place));
    }
    Ok(Ratio { num, den })
}

// Degrees of so many digits, minutes of two, and their decimals.
pub(crate) fn angle(text: &[u8], width: usize, limit: u64, place: usize) -> Result<Ratio, Refusal>
    requires { (width ≤ 3) × (limit ≤ 180) }
    ensures { (result ≡ at place (angle_of width limit text.now)) × IfOk result IsSize }
{
    if !has_form(text, width + 2, 9) {
        return Err(Fault::NotRequest.at(place));
    }
    let minutes = part(text, width, 2);
    if 59 < minutes {
        return Err(Fault::NoPlace.at(place));
    }
    let degrees = part(text, 0, width);
    let behind = decimals(text, width + 3, minutes);
    let den = 60 * behind.scale;
    let num = degrees * den + behind.value;
    limited(num, den, limit, place)
}

// The letter of one side or of the other.
pub(crate) fn side(text: &[u8], plus: u8, minus: u8, place: usize) -> Result<bool, Refusal>
    ensures { result ≡ at place (side_of plus minus text.now) }
{
    let pluses = [plus];
    if formed(&pluses, text) {
        return Ok(false);
    }
    let minuses = [minus];
    if formed(&minuses, text) {
        return Ok(true);
    }
    Err(Fault::NotRequest.at(place))
}

// One digit to three, and their decimals.
// Stays a function: it reads, and prints nothing.
fn decimal(text: &[u8], limit: u64, place: usize) -> Result<Ratio, Refusal>
    requires { limit ≤ 180 }
    ensures { (result ≡ at place (decimal_of limit text.now)) × IfOk result IsSize }
{
    let whole = find(text, 0, b'.', b'.');
    if whole < 1 {
        return Err(Fault::NotRequest.at(place));
    }
    if 3 < whole {
        return Err(Fault::NotRequest.at(place));
    }
    if !has_form(text, whole, 9) {
        return Err(Fault::NotRequest.at(place));
    }
    let start = part(text, 0, whole);
    let behind = decimals(text, whole + 1, start);
    let num = behind.value;
    let den = behind.scale;
    limited(num, den, limit, place)
}

// The first byte, or 0.
// Stays a sentinel: callers compare it with the two signs alone, and 0 is neither.
pub(crate) fn first(text: &[u8]) -> u8
    ensures { result ≡ get_or text.now 0 0 }
{
    text.first().copied().unwrap_or(0)
}

// How long its sign is.
pub(crate) fn sign_size(text: &[u8]) -> usize
    ensures { (drop result text.now ≡ unsigned text.now) × (result ≤ length text.now) }
{
    let byte = first(text);
    if byte == b'+' || byte == b'-' { 1 } else { 0 }
}

// A word of a plain line as degrees.
pub(crate) fn signed_degrees(text: &[u8], limit: u64, place: usize) -> Result<f32, Refusal>
    requires { limit ≤ 180 }
    ensures { result ≡ shown (at place (degrees_of limit text.now)) nearest_to }
{
    let sign = sign_size(text);
    let minus = first(text) == b'-';
    let size = decimal(&text[sign..], limit, place)?;
    Ok(nearest_to(minus, size.num, size.den))
}
