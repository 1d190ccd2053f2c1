// The lines that are printed, into a lent buffer.
// Stays, point 4: bytes go into a lent buffer, each by an equation (Put), which Display has not.
ghost use mathlib.Core.{List.{◌∷◌, map}, Path.{◌≡◌}};
ghost use Rattle.std.specs.Prelude.{Some, take};
ghost use Rattle.hour.specs.{Hour.{Answered}, Line.{clock_text, signed_text, hour_line, refused_line}};
ghost use Rattle.line.specs.{Clock.{shown}, Put.{Put}};
ghost use Rattle.tzif.specs.{Local.{replied}, Reply.{given}};

use calendar::civil::{Reading, civil_time};
use line::clock::{put_date, put_shown, put_time};
use line::put::{put, put_all, put_decimal, put_number};
use numbers::fault::Fault;
use tzif::local::{Local, offset_bits};
use tzif::refusal::{Refusal, refuse};

// A space and the seconds east of UT.
fn put_offset(out: &mut [u8], at: usize, local: Local) -> usize
    ensures { Put out.old at (32 ∷ signed_text local.offset) out.new result }
{
    let start = put(out, at, b' ');
    let bits = offset_bits(local);
    let offset = local.offset;
    if offset < 0 {
        let digits = put(out, start, b'-');
        return put_decimal(out, digits, 0x1_0000_0000 - bits);
    }
    put_decimal(out, start, bits)
}

// A space and so many bytes of a text, or all.
// Stays a length: `most` may be more than the text has, and then all of it is put.
fn put_name(out: &mut [u8], at: usize, text: &[u8], most: usize) -> usize
    ensures { Put out.old at (32 ∷ map shown (take most text.now)) out.new result }
{
    let size = most.min(text.len());
    let start = put(out, at, b' ');
    put_shown(out, start, &text[..size], 0)
}

// What a clock shows, from the line's start on.
fn put_clock(out: &mut [u8], reading: Reading) -> usize
    ensures { Put out.old 0 (clock_text reading) out.new result }
{
    let name = put_all(out, 0, b"hour ");
    let date = put_date(out, name, reading);
    let space = put(out, date, b' ');
    let time = put_time(out, space, reading);
    put_number(out, time, reading.weekday)
}

fn put_hour(out: &mut [u8], reading: Reading, local: Local, text: &[u8]) -> usize
    ensures { Put out.old 0 (hour_line reading local (take local.length text.now)) out.new result }
{
    let clock = put_clock(out, reading);
    let offset = put_offset(out, clock, local);
    let daylight = put_number(out, offset, local.daylight as u64);
    let abbreviation = put_name(out, daylight, text, local.length);
    put(out, abbreviation, b'\n')
}

pub fn put_refusal(out: &mut [u8], why: Refusal) -> usize
    ensures { Put out.old 0 (refused_line why) out.new result }
{
    let name = put_all(out, 0, b"refused");
    let number = put_number(out, name, why.number as u64);
    let detail = put_number(out, number, why.detail as u64);
    put(out, detail, b'\n')
}

// What a clock shows; 61 outside the years 1 to 9999.
fn put_local(out: &mut [u8], instant: i64, local: Local, text: &[u8]) -> usize
    ensures { Answered instant (replied (given (Some local)) text.now) out.old out.new result }
{
    match civil_time(instant, local.offset) {
        Some(reading) => put_hour(out, reading, local, text),
        None => put_refusal(out, refuse(Fault::YearOutside, 0)),
    }
}

pub fn put_answer(
    out: &mut [u8],
    instant: i64,
    answer: Result<Option<Local>, Refusal>,
    text: &[u8],
) -> usize
    ensures { Answered instant (replied answer text.now) out.old out.new result }
{
    match answer {
        Ok(Some(local)) => put_local(out, instant, local, text),
        Ok(None) => put_all(out, 0, b"unknown\n"),
        Err(why) => put_refusal(out, why),
    }
}
