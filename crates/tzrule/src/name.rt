// Names in a TZ string.
ghost use Rattle.std.specs.Prelude.{IfOk, ◌≡◌, ◌≤◌, not, position, length};
ghost use Rattle.tzrule.specs.{Names.{is_letter, in_name, end_of, bare_of, quoted_of, name_of}, inner.Reads.{Reads, Spans}};

use crate::cursor::{Cursor, Read};
use crate::fault::Fault;
use crate::number::{byte_at, is_digit};

// Where a name stands.
#[derive(Clone, Copy, Debug, PartialEq, Eq)]
pub struct Span {
    pub start: usize,
    pub end: usize,
}

// Written as steps: with `&&` in the place of the jumps, a digit of a name in brackets takes twice the instructions.
fn is_letter(byte: u64) -> bool
    ensures { result ≡ is_letter byte }
{
    if byte < 65 {
        return false;
    }
    if byte < 91 {
        return true;
    }
    if byte < 97 {
        return false;
    }
    byte < 123
}

// A byte of a name; in brackets digits and signs too.
fn in_name(quoted: bool, byte: u64) -> bool
    ensures { result ≡ in_name quoted byte }
{
    is_letter(byte) || quoted && (is_digit(byte) || (byte == 43 || byte == 45))
}

// The place of the first byte that is none of a name.
fn first_other(quoted: bool, text: &[u8]) -> Option<usize>
    ensures { result ≡ position (λ byte. not (in_name quoted byte)) text.now }
{
    text.iter()
        .position(|byte| !in_name(quoted, u64::from(*byte)))
}

// The place behind the bytes of a name.
fn name_end(quoted: bool, text: &[u8], at: usize) -> usize
    requires { at ≤ length text.now }
    ensures { (result ≡ end_of quoted text.now at) × (result ≤ length text.now) }
{
    match first_other(quoted, &text[at..]) {
        Some(size) => at + size,
        None => text.len(),
    }
}

// Three letters or more.
fn bare_at<'a>(here: Cursor<'a>) -> Read<'a, Span>
    ensures { Reads here.entry bare_of result × IfOk result (λ read. Spans (length here.entry.text.now) read.0) }
{
    let end = name_end(false, here.text, here.at);
    if end < here.at + 3 {
        return Err(Fault { place: end });
    }
    let span = Span {
        start: here.at,
        end,
    };
    let rest = Cursor {
        text: here.text,
        at: end,
    };
    Ok((span, rest))
}

// Three bytes or more and the closing bracket, behind the opening one.
fn quoted_at<'a>(here: Cursor<'a>) -> Read<'a, Span>
    ensures { Reads here.entry quoted_of result × IfOk result (λ read. Spans (length here.entry.text.now) read.0) }
{
    let end = name_end(true, here.text, here.at);
    if end < here.at + 3 {
        return Err(Fault { place: end });
    }
    let last = Cursor {
        text: here.text,
        at: end,
    };
    let rest = last.behind(b'>')?;
    let span = Span {
        start: here.at,
        end,
    };
    Ok((span, rest))
}

// A name.
pub(crate) fn name_at<'a>(here: Cursor<'a>) -> Read<'a, Span>
    ensures { Reads here.entry name_of result × IfOk result (λ read. Spans (length here.entry.text.now) read.0) }
{
    match here.eat(b'<') {
        Some(rest) => quoted_at(rest),
        None => bare_at(here),
    }
}
