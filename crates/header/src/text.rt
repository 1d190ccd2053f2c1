// Strings of the file: where they stand.
// Stays, point 2: `undecoded` and `not_utf8` are one line each, with another cause.
// Stays, point 7: a file is read plainly or strictly as C asks; the definitions take a Bool, a const parameter would compile it twice.
ghost use Rattle.std.specs.Prelude.{◌≡◌};
ghost use Rattle.numbers.specs.{Reply.{refusal, encoding, not_utf8}, Varint.{told}};
ghost use Rattle.header.specs.Text.{within, remote_at, string_at, text_at};

use crate::codes::{ENCODING, NOT_UTF8};
use crate::utf8::is_utf8;
use numbers::refusal::{Refusal, or_refuse, refuse};
use numbers::varint::{Stop, read_number};

// A string of the file: where its bytes begin, how many there are, and the place to read on from. Of an empty one, which may stand past
// the file's end, the start is 0.
#[derive(Clone, Copy)]
pub struct Text {
    pub start: usize,
    pub size: usize,
    pub next: usize,
}

// The refusal that a bad string is to be given: its number and detail.
// Stays a number: `read_text` takes any, and the definitions blame by number.
#[derive(Clone, Copy)]
pub struct Blame {
    pub number: u8,
    pub detail: u64,
}

impl Blame {
    // It can't be decoded.
    fn undecoded(self) -> Refusal
        ensures { result ≡ refusal self.number encoding self.detail }
    {
        refuse(self.number, ENCODING, self.detail)
    }

    // It is not UTF-8.
    fn not_utf8(self) -> Refusal
        ensures { result ≡ refusal self.number not_utf8 self.detail }
    {
        refuse(self.number, NOT_UTF8, self.detail)
    }
}

// The string whose bytes stand at a place, unless one of them is past the end.
// Stays a length: the string's, whose bytes may lie past the file's end.
fn inside(file: &[u8], start: usize, size: usize, next: usize) -> Result<Text, Stop>
    ensures { told result ≡ within file.now (record { start = start; size = size; next = next }) }
{
    if size == 0 {
        return Ok(Text {
            start: 0,
            size: 0,
            next,
        });
    }
    if file.len() < start || file.len() - start < size {
        return Err(Stop::PastEnd);
    }
    Ok(Text { start, size, next })
}

// A string elsewhere: its length, at most 256, stands before its bytes.
fn read_remote(file: &[u8], strict: bool, place: usize, next: usize) -> Result<Text, Stop>
    ensures { told result ≡ remote_at strict file.now place next }
{
    let number = read_number(file, place, strict)?;
    if 256 < number.value {
        return Err(Stop::Failed);
    }
    inside(file, number.place, number.value as usize, next)
}

// The string at a place: a length below 256 is followed by the bytes; any other says where the string is, from the metadata on.
pub fn read_string(file: &[u8], strict: bool, metadata: u32, place: usize) -> Result<Text, Stop>
    ensures { told result ≡ string_at strict file.now metadata place }
{
    let number = read_number(file, place, strict)?;
    let next = number.place;
    if number.value < 256 {
        let end = next + number.value as usize;
        return inside(file, next, number.value as usize, end);
    }
    let away = (metadata as u64 + (number.value - 256) % 0x1_0000_0000) % 0x1_0000_0000;
    read_remote(file, strict, away as usize, next)
}

// The string at a place, which must be UTF-8.
pub fn read_text(
    file: &[u8],
    strict: bool,
    metadata: u32,
    place: usize,
    blame: Blame,
) -> Result<Text, Refusal>
    ensures { result ≡ text_at strict file.now metadata place blame }
{
    let text = or_refuse(
        read_string(file, strict, metadata, place),
        blame.undecoded(),
    )?;
    let start = text.start;
    let end = start + text.size;
    if !is_utf8(&file[start..end]) {
        return Err(blame.not_utf8());
    }
    Ok(text)
}
