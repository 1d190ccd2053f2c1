// The day that a rule of a TZ string means in a year, which is told by how many come before it.
ghost use Rattle.std.specs.Prelude.{◌≡◌, ◌≤◌, ◌<◌};
ghost use Rattle.calendar.specs.{Rules.{leap_day, last_on, first_of, weeks_of, day_of, IsMonth, IsWhen}, declared.rule.When.TheVariants.{Month}};

use crate::date::weekday_of;
use crate::month::{days_of_months, month_length};
use crate::year::{days_of_years, is_leap};

// Which day of a year is meant.
#[derive(Clone, Copy)]
pub enum When {
    // J n: the n-th day, from 1; 29 February is never counted.
    Julian(u64),
    // n: so many days after 1 January.
    Zero(u64),
    // M month.week.weekday: the week-th such weekday of the month; in week 5 the last.
    Month { month: u64, week: u64, weekday: u64 },
}

// The leap day, where the n-th day of a year without it comes after it.
fn leap_day(past: u64, n: u64) -> u64
    requires { past ≤ 11000 }
    ensures { result ≡ leap_day past n }
{
    if is_leap(past + 1) {
        if n < 60 {
            return 0;
        }
        return 1;
    }
    0
}

// The last day up to this one that has a weekday.
fn last_on(weekday: u64, day: u64) -> u64
    requires { (weekday ≤ 6) × (6 ≤ day) }
    ensures { result ≡ last_on weekday day }
{
    day - (weekday_of(day) + 7 - weekday) % 7
}

// The first day of a month.
fn first_of(past: u64, month: u64) -> u64
    requires { (past ≤ 11000) × (1 ≤ month) × (month ≤ 12) }
    ensures { result ≡ first_of past month }
{
    let days = days_of_years(past);
    let leap = is_leap(past + 1);
    days + days_of_months(leap, month - 1)
}

// The first so many weeks of a month, in days, or all the month if it is shorter.
fn weeks_of(past: u64, month: u64, week: u64) -> u64
    requires { (past ≤ 11000) × (1 ≤ month) × (month ≤ 12) × (week ≤ 5) }
    ensures { result ≡ weeks_of past month week }
{
    let length = month_length(is_leap(past + 1), month);
    if 7 * week < length {
        return 7 * week;
    }
    length
}

// The day of M month.week.weekday.
fn month_day(past: u64, month: u64, week: u64, weekday: u64) -> u64
    requires { (past ≤ 11000) × IsMonth month week weekday }
    ensures { result ≡ day_of (Month month week weekday) past }
{
    let first = first_of(past, month);
    let weeks = weeks_of(past, month, week);
    last_on(weekday, first + weeks - 1)
}

// The day that is meant.
pub fn day_of(when: When, past: u64) -> u64
    requires { (past ≤ 11000) × IsWhen when }
    ensures { result ≡ day_of when past }
{
    match when {
        When::Julian(n) => days_of_years(past) + (n - 1) + leap_day(past, n),
        When::Zero(n) => days_of_years(past) + n,
        When::Month {
            month,
            week,
            weekday,
        } => month_day(past, month, week, weekday),
    }
}
