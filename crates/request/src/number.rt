// Numbers that digits spell.
// Stays, point 6: `n` and `most` count the digits that a form has; neither is a list's length.
ghost use Rattle.std.specs.Prelude.{◌≡◌, ◌+◌, ◌^◌, ◌≤◌, ◌<◌, length};
ghost use Rattle.request.specs.Number.{digit_of, value_from, part_of, is_tail, has_form};

use crate::text::every;

// A number, and ten for each of its digits.
#[derive(Clone, Copy)]
pub struct Digits {
    pub value: u64,
    pub scale: u64,
}

// What a digit counts; any other byte counts nothing.
fn digit(byte: u8) -> u64
    ensures { result ≡ digit_of byte }
{
    if byte.is_ascii_digit() {
        u64::from(byte - b'0')
    } else {
        0
    }
}

// The number of the digits, behind those that made a number.
pub(crate) fn value(start: u64, text: &[u8]) -> Digits
    requires { (length text.now ≤ 19) × (value_from start text.now < 2 ^ 64) }
    ensures { result ≡ record { value = value_from start text.now; scale = 10 ^ length text.now } }
{
    let mut value = start;
    let mut scale: u64 = 1;
    for byte in text {
        value = 10 * value + digit(*byte);
        scale = 10 * scale;
    }
    Digits { value, scale }
}

// The number of so many digits from a place on.
pub(crate) fn part(text: &[u8], from: usize, n: usize) -> u64
    requires { (n ≤ 4) × (from + n ≤ length text.now) }
    ensures { (result ≡ part_of from n text.now) × (result < 10 ^ n) }
{
    let to = from + n;
    let digits = value(0, &text[from..to]);
    digits.value
}

// Nothing, or a point and one digit to so many.
fn is_tail(text: &[u8], most: usize) -> bool
    ensures { result ≡ is_tail most text.now }
{
    let size = text.len();
    size == 0 || text[0] == b'.' && 2 <= size && size - 1 <= most && every(&text[1..], false)
}

// So many digits, and behind them nothing, or a point and one digit to so many.
pub(crate) fn has_form(text: &[u8], width: usize, most: usize) -> bool
    ensures { result ≡ has_form width most text.now }
{
    if text.len() < width {
        return false;
    }
    every(&text[..width], false) && is_tail(&text[width..], most)
}
