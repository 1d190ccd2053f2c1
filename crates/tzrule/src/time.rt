// Times of day and offsets in a TZ string, in seconds.
ghost use Rattle.std.specs.Prelude.{IfOk, ◌≡◌, ◌+◌, ◌*◌, ◌≤◌, length};
ghost use Rattle.tzrule.specs.{Grammar.{IsShape, seconds_of, minutes_of, clock_of, later_of, earlier_of, signed_of}, inner.Reads.{Reads, Around}};

use crate::cursor::{Cursor, Read};
use crate::number::Shape;

// Minutes and seconds: two digits, 0 to 59.
const SIXTY: Shape = Shape {
    least: 2,
    most: 2,
    low: 0,
    high: 59,
};

// [:ss], more what was read before.
fn seconds_at<'a>(here: Cursor<'a>, sum: u64) -> Read<'a, u64>
    requires { sum ≤ 10000000 }
    ensures { Reads here.entry (λ text. seconds_of text sum) result × IfOk result (λ read. read.0 ≤ sum + 59) }
{
    let Some(rest) = here.eat(b':') else {
        return Ok((sum, here));
    };
    let (seconds, rest) = rest.number(SIXTY)?;
    Ok((sum + seconds, rest))
}

// [:mm[:ss]], more what was read before.
fn minutes_at<'a>(here: Cursor<'a>, sum: u64) -> Read<'a, u64>
    requires { sum ≤ 9000000 }
    ensures { Reads here.entry (λ text. minutes_of text sum) result × IfOk result (λ read. read.0 ≤ sum + 3599) }
{
    let Some(rest) = here.eat(b':') else {
        return Ok((sum, here));
    };
    let (minutes, rest) = rest.number(SIXTY)?;
    seconds_at(rest, sum + 60 * minutes)
}

// hh[:mm[:ss]].
pub(crate) fn clock_at<'a>(here: Cursor<'a>, hours: Shape) -> Read<'a, u64>
    requires { IsShape hours }
    ensures { Reads here.entry (clock_of hours) result × IfOk result (λ read. read.0 ≤ 3600 * hours.high + 3599) }
{
    let (hour, rest) = here.number(hours)?;
    minutes_at(rest, 3600 * hour)
}

// A time after midnight, more 604800.
// Stays a function: it reads a time, and is no order.
pub(crate) fn later_at<'a>(here: Cursor<'a>, hours: Shape) -> Read<'a, u64>
    requires { IsShape hours × (hours.high ≤ 167) }
    ensures { Reads here.entry (later_of hours) result × IfOk result (λ read. Around (3600 * hours.high + 3599) read.0) }
{
    let (time, rest) = clock_at(here, hours)?;
    Ok((604800 + time, rest))
}

// A time before midnight, from 604800.
fn earlier_at<'a>(here: Cursor<'a>, hours: Shape) -> Read<'a, u64>
    requires { IsShape hours × (hours.high ≤ 167) }
    ensures { Reads here.entry (earlier_of hours) result × IfOk result (λ read. Around (3600 * hours.high + 3599) read.0) }
{
    let (time, rest) = clock_at(here, hours)?;
    Ok((604800 - time, rest))
}

// With or without a sign, which is of the whole.
pub(crate) fn signed_at<'a>(here: Cursor<'a>, hours: Shape) -> Read<'a, u64>
    requires { IsShape hours × (hours.high ≤ 167) }
    ensures { Reads here.entry (signed_of hours) result × IfOk result (λ read. Around (3600 * hours.high + 3599) read.0) }
{
    if let Some(rest) = here.eat(b'-') {
        return earlier_at(rest, hours);
    }
    if let Some(rest) = here.eat(b'+') {
        return later_at(rest, hours);
    }
    later_at(here, hours)
}
