// The lines that are printed. Each function puts something at a place of a lent buffer, as far as it fits, and answers the place after it.
// Stays, point 5: `hits` and `text` are the two lists that a lookup fills, and it takes them apart.
// Stays, point 4: bytes go into a lent buffer, each by an equation (Put), which Display has not.
ghost use Rattle.std.specs.Prelude.{◌≡◌, ◌+◌, ◌%◌, min, length, take};
ghost use Rattle.line.specs.Put.{Put};
ghost use Rattle.numbers.specs.Reply.{given};
ghost use Rattle.table.specs.Hits.{slots};
ghost use Rattle.zone.specs.Lines.{hex_digit, hex_byte, bits_text, digits_text, bytes_text, size_of, field_line, field_lines, Behind, match_line, match_lines, lookup_line, refused_line, lines_of};

use line::bytes::byte_at;
use line::put::{put, put_all, put_number};
use numbers::refusal::Refusal;
use table::hits::{Hit, hit_at, room};
use zones::lookup::Zones;

// The place behind the lines of some fields, and the place behind the fields in their text.
#[derive(Clone, Copy)]
struct Places {
    out: usize,
    text: usize,
}

fn hex_digit(n: u8) -> u8
    ensures { result ≡ hex_digit n }
{
    let digit = n % 16;
    if digit < 10 {
        b'0' + digit
    } else {
        b'A' - 10 + digit
    }
}

// Stays apart: hexadecimal digits; line's `put_two` has decimal ones.
fn put_hex(out: &mut [u8], at: usize, byte: u8) -> usize
    ensures { Put out.old at (hex_byte byte) out.new result }
{
    let high = hex_digit(byte / 16);
    let low = hex_digit(byte);
    let next = put(out, at, high);
    put(out, next, low)
}

fn low_byte(bits: u32) -> u8
    ensures { result ≡ bits % 256 }
{
    (bits % 256) as u8
}

// A space and the bits, highest first.
fn put_bits(out: &mut [u8], at: usize, bits: u32) -> usize
    ensures { Put out.old at (bits_text bits) out.new result }
{
    let a = low_byte(bits / 16777216);
    let b = low_byte(bits / 65536);
    let c = low_byte(bits / 256);
    let d = low_byte(bits);
    let first = put(out, at, b' ');
    let second = put_hex(out, first, a);
    let third = put_hex(out, second, b);
    let fourth = put_hex(out, third, c);
    put_hex(out, fourth, d)
}

// The digits of each byte.
// Stays apart: two digits for each byte, so it is no `put_all`.
fn put_digits(out: &mut [u8], at: usize, bytes: &[u8]) -> usize
    ensures { Put out.old at (digits_text bytes.now) out.new result }
{
    let mut next = at;
    for byte in bytes {
        next = put_hex(out, next, *byte);
    }
    next
}

// After a space if there are any.
fn put_bytes(out: &mut [u8], at: usize, bytes: &[u8]) -> usize
    ensures { Put out.old at (bytes_text bytes.now) out.new result }
{
    if bytes.is_empty() {
        return at;
    }
    let next = put(out, at, b' ');
    put_digits(out, next, bytes)
}

// Where a text's first field ends, or the text: a tag, a length in two bytes, the high one first, and so many bytes.
fn field_end(text: &[u8]) -> usize
    ensures { result ≡ min (3 + size_of text.now) (length text.now) }
{
    let high = byte_at(text, 1);
    let low = byte_at(text, 2);
    (3 + (high as usize * 256 + low as usize)).min(text.len())
}

fn put_field(out: &mut [u8], at: usize, text: &[u8]) -> usize
    ensures { Put out.old at (field_line text.now) out.new result }
{
    let end = field_end(text);
    let start = end.min(3);
    let tag = byte_at(text, 0);
    let name = put_all(out, at, b"field");
    let index = put_number(out, name, tag as u64);
    let bytes = put_bytes(out, index, &text[start..end]);
    put(out, bytes, b'\n')
}

fn put_fields(out: &mut [u8], at: usize, text: &[u8], count: u8) -> Places
    ensures { Put out.old at (field_lines count text.now) out.new result.out
        × Behind count text.now result.text }
{
    let mut next = at;
    let mut place = 0;
    for _ in 0..count {
        let end = field_end(&text[place..]);
        next = put_field(out, next, &text[place..]);
        place += end;
    }
    Places {
        out: next,
        text: place,
    }
}

// Both ids, the kind, the place of the entry.
fn put_match(out: &mut [u8], at: usize, hit: Hit) -> usize
    ensures { Put out.old at (match_line hit) out.new result }
{
    let name = put_all(out, at, b"match");
    let polygon = put_number(out, name, hit.polygon as u64);
    let metadata = put_number(out, polygon, hit.metadata as u64);
    let kind = put_number(out, metadata, hit.kind as u64);
    let place = put_number(out, kind, hit.place as u64);
    put(out, place, b'\n')
}

// Each match and its fields, as many matches as there are words for.
// Stays a length: there may be more matches than there are words for.
fn put_matches(
    out: &mut [u8],
    at: usize,
    matches: usize,
    count: u8,
    hits: &[u32],
    text: &[u8],
) -> usize
    ensures { Put out.old at (match_lines count (take matches (slots hits.now)) text.now) out.new result }
{
    let all = matches.min(room(hits));
    let mut next = at;
    let mut place = 0;
    for i in 0..all {
        let hit = hit_at(hits, i);
        let fields = put_match(out, next, hit);
        let places = put_fields(out, fields, &text[place..], count);
        next = places.out;
        place += places.text;
    }
    next
}

// Matches, end mark, safezone.
fn put_head(out: &mut [u8], zones: Zones) -> usize
    ensures { Put out.old 0 (lookup_line zones) out.new result }
{
    let name = put_all(out, 0, b"lookup");
    let matches = put_number(out, name, zones.matches as u64);
    let mark = put_number(out, matches, zones.mark as u64);
    let safezone = put_bits(out, mark, zones.safezone);
    put(out, safezone, b'\n')
}

pub fn put_zones(out: &mut [u8], zones: Zones, count: u8, hits: &[u32], text: &[u8]) -> usize
    ensures { Put out.old 0 (lines_of count (given zones) hits.now text.now) out.new result }
{
    let matches = zones.matches;
    let first = put_head(out, zones);
    put_matches(out, first, matches, count, hits, text)
}

pub fn put_refusal(out: &mut [u8], why: Refusal) -> usize
    ensures { Put out.old 0 (refused_line why) out.new result }
{
    let name = put_all(out, 0, b"refused");
    let number = put_number(out, name, why.number as u64);
    put(out, number, b'\n')
}
