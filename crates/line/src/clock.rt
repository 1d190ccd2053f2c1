// What a clock shows, and texts, into a lent buffer.
// Stays, point 4: bytes go into a lent buffer, each by an equation (Put), which Display has not; `shown` is a word of the definitions.
ghost use mathlib.Core.{List.{map}, Path.{◌≡◌}};
ghost use Rattle.std.specs.Int.Bits.{bit_xor};
ghost use Rattle.line.specs.{Clock.{weekday_text, date_text, time_text, hours_text, seconds_text, span_text, shown}, Put.{Put}};

use crate::put::{put, put_all, put_decimal, put_two};
use calendar::civil::Reading;

pub fn put_weekday(out: &mut [u8], at: usize, weekday: u64) -> usize
    ensures { Put out.old at (weekday_text weekday) out.new result }
{
    match weekday {
        0 => put_all(out, at, b"Sun"),
        1 => put_all(out, at, b"Mon"),
        2 => put_all(out, at, b"Tue"),
        3 => put_all(out, at, b"Wed"),
        4 => put_all(out, at, b"Thu"),
        5 => put_all(out, at, b"Fri"),
        6 => put_all(out, at, b"Sat"),
        _ => at,
    }
}

pub fn put_date(out: &mut [u8], at: usize, reading: Reading) -> usize
    ensures { Put out.old at (date_text reading) out.new result }
{
    let century = put_two(out, at, reading.year / 100);
    let year = put_two(out, century, reading.year);
    let first = put(out, year, b'-');
    let month = put_two(out, first, reading.month);
    let second = put(out, month, b'-');
    put_two(out, second, reading.day)
}

pub fn put_time(out: &mut [u8], at: usize, reading: Reading) -> usize
    ensures { Put out.old at (time_text reading) out.new result }
{
    let hour = put_two(out, at, reading.hour);
    let first = put(out, hour, b':');
    let minute = put_two(out, first, reading.minute);
    let second = put(out, minute, b':');
    put_two(out, second, reading.second)
}

// Two digits or more.
fn put_hours(out: &mut [u8], at: usize, hours: u64) -> usize
    ensures { Put out.old at (hours_text hours) out.new result }
{
    if hours < 100 {
        return put_two(out, at, hours);
    }
    put_decimal(out, at, hours)
}

fn put_seconds(out: &mut [u8], at: usize, seconds: u64) -> usize
    ensures { Put out.old at (seconds_text seconds) out.new result }
{
    if seconds == 0 {
        return at;
    }
    let colon = put(out, at, b':');
    put_two(out, colon, seconds)
}

// So many seconds in hours, minutes, and seconds where there are some.
pub fn put_span(out: &mut [u8], at: usize, seconds: u64) -> usize
    ensures { Put out.old at (span_text seconds) out.new result }
{
    let hours = put_hours(out, at, seconds / 3600);
    let colon = put(out, hours, b':');
    let minutes = put_two(out, colon, seconds / 60 % 60);
    put_seconds(out, minutes, seconds % 60)
}

fn shown(byte: u8) -> u8
    ensures { result ≡ shown byte }
{
    if 32 < byte {
        if byte < 127 {
            return byte;
        }
    }
    b'?'
}

// A text, each byte taken XOR a mask.
pub fn put_shown(out: &mut [u8], at: usize, text: &[u8], mask: u8) -> usize
    ensures { Put out.old at (map (λ byte. shown (bit_xor byte mask)) text.now) out.new result }
{
    let mut next = at;
    for byte in text {
        next = put(out, next, shown(*byte ^ mask));
    }
    next
}
