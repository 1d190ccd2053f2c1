// Dates in a TZ string.
// Stays, point 2: `julian_at` and `zero_at` are two lines each, with another shape and another variant.
ghost use Rattle.std.specs.Prelude.{IfOk, ◌≡◌, ◌≤◌};
ghost use Rattle.calendar.specs.Rules.{IsWhen};
ghost use Rattle.tzrule.specs.{Grammar.{IsShape, dotted_of, julian_of, zero_of, month_from, date_of}, inner.Reads.{Reads}};

use crate::cursor::{Cursor, Read};
use crate::number::Shape;
use calendar::rule::When;

// A day of the year has one digit to three.
const JULIAN: Shape = Shape {
    least: 1,
    most: 3,
    low: 1,
    high: 365,
};

const ZERO: Shape = Shape {
    least: 1,
    most: 3,
    low: 0,
    high: 365,
};

const MONTH: Shape = Shape {
    least: 1,
    most: 2,
    low: 1,
    high: 12,
};

const WEEK: Shape = Shape {
    least: 1,
    most: 1,
    low: 1,
    high: 5,
};

const WEEKDAY: Shape = Shape {
    least: 1,
    most: 1,
    low: 0,
    high: 6,
};

// A number behind a full stop.
fn dotted_at<'a>(here: Cursor<'a>, shape: Shape) -> Read<'a, u64>
    requires { IsShape shape }
    ensures { Reads here.entry (dotted_of shape) result × IfOk result (λ read. (shape.low ≤ read.0) × (read.0 ≤ shape.high)) }
{
    here.behind(b'.')?.number(shape)
}

// J n, behind the J.
fn julian_at<'a>(here: Cursor<'a>) -> Read<'a, When>
    ensures { Reads here.entry julian_of result × IfOk result (λ read. IsWhen read.0) }
{
    let (n, rest) = here.number(JULIAN)?;
    Ok((When::Julian(n), rest))
}

// n.
fn zero_at<'a>(here: Cursor<'a>) -> Read<'a, When>
    ensures { Reads here.entry zero_of result × IfOk result (λ read. IsWhen read.0) }
{
    let (n, rest) = here.number(ZERO)?;
    Ok((When::Zero(n), rest))
}

// M month.week.weekday, behind the M.
fn month_at<'a>(here: Cursor<'a>) -> Read<'a, When>
    ensures { Reads here.entry month_from result × IfOk result (λ read. IsWhen read.0) }
{
    let (month, rest) = here.number(MONTH)?;
    let (week, rest) = dotted_at(rest, WEEK)?;
    let (weekday, rest) = dotted_at(rest, WEEKDAY)?;
    let when = When::Month {
        month,
        week,
        weekday,
    };
    Ok((when, rest))
}

// A date.
pub(crate) fn date_at<'a>(here: Cursor<'a>) -> Read<'a, When>
    ensures { Reads here.entry date_of result × IfOk result (λ read. IsWhen read.0) }
{
    if let Some(rest) = here.eat(b'J') {
        return julian_at(rest);
    }
    if let Some(rest) = here.eat(b'M') {
        return month_at(rest);
    }
    zero_at(here)
}
