// The whole TZ string.
// Stays, point 2: `standard_at` and `daylight_at` are three lines each; a closure for the offset would be no plainer.
ghost use Rattle.std.specs.Prelude.{IfOk, ◌≡◌, ◌≤◌, length};
ghost use Rattle.tzrule.specs.{Grammar.{signed_of}, Summer.{IsChange}};
ghost use Rattle.tzrule.specs.{String.{day_hours, hours_of, time_of, change_of, clock_of, summer_of, changing_of, string_of}, inner.{Reads.{Reads, Around}, String.{told_string, IsClock, IsTz, GoodString}}};

use crate::cursor::{Cursor, Read};
use crate::date::date_at;
use crate::fault::Fault;
use crate::name::name_at;
use crate::number::Shape;
use crate::rule::{Change, Clock, Rule, Tz};
use crate::time::{later_at, signed_at};

// Hours of an offset, and of a time of version 2; of a time from version 3 on.
const DAY_HOURS: Shape = Shape {
    least: 1,
    most: 2,
    low: 0,
    high: 24,
};

const WEEK_HOURS: Shape = Shape {
    least: 1,
    most: 3,
    low: 0,
    high: 167,
};

// A string with the place behind it.
#[derive(Clone, Copy)]
pub struct StringAt {
    pub tz: Tz,
    pub next: usize,
}

// The offset of summer time, which may be left out.
fn summer_offset_at<'a>(here: Cursor<'a>, standard: u64) -> Read<'a, u64>
    requires { (3600 ≤ standard) × (standard ≤ 1209600) }
    ensures { Reads here.entry (summer_of standard) result × IfOk result (λ read. read.0 ≤ 1209600) }
{
    match here.eat(b',') {
        Some(_) => Ok((standard - 3600, here)),
        None => signed_at(here, DAY_HOURS),
    }
}

// The hours of a time, by the version.
fn hours_at<'a>(here: Cursor<'a>, wide: bool) -> Read<'a, u64>
    ensures { Reads here.entry (hours_of wide) result × IfOk result (λ read. read.0 ≤ 1209600) }
{
    if wide {
        return signed_at(here, WEEK_HOURS);
    }
    later_at(here, DAY_HOURS)
}

// [/time], else 02:00:00.
fn time_at<'a>(here: Cursor<'a>, wide: bool) -> Read<'a, u64>
    ensures { Reads here.entry (time_of wide) result × IfOk result (λ read. read.0 ≤ 1209600) }
{
    match here.eat(b'/') {
        Some(rest) => hours_at(rest, wide),
        None => Ok((612000, here)),
    }
}

// ,date[/time].
fn change_at<'a>(here: Cursor<'a>, wide: bool) -> Read<'a, Change>
    ensures { Reads here.entry (change_of wide) result × IfOk result (λ read. IsChange read.0) }
{
    let rest = here.behind(b',')?;
    let (when, rest) = date_at(rest)?;
    let (time, rest) = time_at(rest, wide)?;
    Ok((Change { when, time }, rest))
}

// std offset.
fn standard_at<'a>(here: Cursor<'a>) -> Read<'a, Clock>
    ensures { Reads here.entry (λ text. clock_of (signed_of day_hours text) text) result × IfOk result (λ read. IsClock (length here.entry.text.now) read.0 × (3600 ≤ read.0.west)) }
{
    let (name, rest) = name_at(here)?;
    let (west, rest) = signed_at(rest, DAY_HOURS)?;
    Ok((Clock { name, west }, rest))
}

// dst[offset].
fn daylight_at<'a>(here: Cursor<'a>, standard: u64) -> Read<'a, Clock>
    requires { (3600 ≤ standard) × (standard ≤ 1209600) }
    ensures { Reads here.entry (λ text. clock_of (summer_of standard text) text) result × IfOk result (λ read. IsClock (length here.entry.text.now) read.0) }
{
    let (name, rest) = name_at(here)?;
    let (west, rest) = summer_offset_at(rest, standard)?;
    Ok((Clock { name, west }, rest))
}

// dst[offset],date[/time],date[/time], behind standard time.
fn changing_at<'a>(here: Cursor<'a>, wide: bool, standard: Clock) -> Read<'a, Tz>
    requires { IsClock (length here.text.now) standard × (3600 ≤ standard.west) }
    ensures { Reads here.entry (changing_of wide standard) result × IfOk result (λ read. IsTz (length here.entry.text.now) read.0) }
{
    let (daylight, rest) = daylight_at(here, standard.west)?;
    let (start, rest) = change_at(rest, wide)?;
    let (end, rest) = change_at(rest, wide)?;
    let rest = rest.behind(b'\n')?;
    let rule = Rule {
        standard,
        daylight,
        start,
        end,
    };
    Ok((Tz::Changing(rule), rest))
}

// The same from standard time on.
fn tz_at<'a>(here: Cursor<'a>, wide: bool) -> Read<'a, Tz>
    ensures { Reads here.entry (string_of wide) result × IfOk result (λ read. IsTz (length here.entry.text.now) read.0) }
{
    let (standard, rest) = standard_at(here)?;
    match rest.eat(b'\n') {
        Some(rest) => Ok((Tz::Fixed(standard), rest)),
        None => changing_at(rest, wide, standard),
    }
}

// The string from a place on, with the newline that closes it, or the place of its fault.
// Stays parameters: the `Cursor` is made here of them, by this clause.
pub fn string_at(text: &[u8], at: usize, wide: bool) -> Result<StringAt, Fault>
    requires { (length text.now ≤ 1073741824) × (at ≤ length text.now) }
    ensures { (told_string result ≡ string_of wide text.now at) × GoodString (length text.now) result }
{
    let (tz, rest) = tz_at(Cursor { text, at }, wide)?;
    Ok(StringAt { tz, next: rest.at })
}
