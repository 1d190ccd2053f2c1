// Bytes and numbers in a TZ string.
ghost use Rattle.std.specs.Prelude.{IfOk, ◌≡◌, ◌+◌, ◌≤◌, ◌<◌, length};
ghost use Rattle.tzrule.specs.{Grammar.{IsShape, number_of}, Text.{byte_at, is_digit, digits_of}, inner.Reads.{Reads, Eaten, Behind}};

use crate::cursor::{Cursor, Read};
use crate::fault::Fault;

// Digits that were read: their number, and the place behind them.
#[derive(Clone, Copy)]
pub struct Digits {
    pub value: u64,
    pub next: usize,
}

// How many digits a number has, and its range.
#[derive(Clone, Copy)]
pub struct Shape {
    pub least: usize,
    pub most: usize,
    pub low: u64,
    pub high: u64,
}

// The byte at a place; 0 past the end.
// Stays apart: one line of std's words, which the definition names.
// Stays parameters: it is asked past the text's end too, where no `Cursor` stands.
pub fn byte_at(text: &[u8], at: usize) -> u8
    ensures { result ≡ byte_at text.now at }
{
    text.get(at).copied().unwrap_or(0)
}

pub fn is_digit(byte: u64) -> bool
    ensures { result ≡ is_digit byte }
{
    48 <= byte && byte < 58
}

// The digits at a place, up to so many.
// Stays a length: `most` counts digits, and is no list's.
fn digits_at(text: &[u8], at: usize, most: usize) -> Digits
    requires { (length text.now ≤ 1073741824) × (at ≤ length text.now) × (most ≤ 3) }
    ensures { (result ≡ digits_of most text.now at 0) × (result.next ≤ length text.now) }
{
    let mut value: u64 = 0;
    let end = at + most;
    for next in at..end {
        let byte = u64::from(byte_at(text, next));
        if !is_digit(byte) {
            return Digits { value, next };
        }
        value = 10 * value + (byte - 48);
    }
    Digits { value, next: end }
}

impl<'a> Cursor<'a> {
    // Behind a byte that is not 0, if it stands here.
    pub(crate) fn eat(self, byte: u8) -> Option<Cursor<'a>>
        requires { 0 < byte }
        ensures { Eaten self.entry byte result }
    {
        if byte_at(self.text, self.at) != byte {
            return None;
        }
        let at = self.at + 1;
        Some(Cursor {
            text: self.text,
            at,
        })
    }

    // Behind a byte that is not 0 and must stand here.
    pub(crate) fn behind(self, byte: u8) -> Result<Cursor<'a>, Fault>
        requires { 0 < byte }
        ensures { Behind self.entry byte result }
    {
        match self.eat(byte) {
            Some(rest) => Ok(rest),
            None => Err(Fault { place: self.at }),
        }
    }

    pub(crate) fn number(self, shape: Shape) -> Read<'a, u64>
        requires { IsShape shape }
        ensures { Reads self.entry (number_of shape) result × IfOk result (λ read. (shape.low ≤ read.0) × (read.0 ≤ shape.high)) }
    {
        let digits = digits_at(self.text, self.at, shape.most);
        let next = digits.next;
        let value = digits.value;
        if next < self.at + shape.least {
            return Err(Fault { place: next });
        }
        if value < shape.low {
            return Err(Fault { place: self.at });
        }
        if shape.high < value {
            return Err(Fault { place: self.at });
        }
        let rest = Cursor {
            text: self.text,
            at: next,
        };
        Ok((value, rest))
    }
}
