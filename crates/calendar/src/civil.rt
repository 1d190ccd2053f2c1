// The date and the time of day that a clock shows.
ghost use Rattle.std.specs.Prelude.{◌<◌, ◌+ℤ◌};
ghost use Rattle.calendar.specs.{Civil.{Shows, CivilOf}, Moments.{MomentOf, instant_of, InDays}};

use crate::date::{date_at, weekday_of};
use crate::moment::{Moment, moment_of};

// What a clock shows: months and days counted from 1, weekday 0 is Sunday.
#[derive(Clone, Copy)]
pub struct Reading {
    pub year: u64,
    pub month: u64,
    pub day: u64,
    pub hour: u64,
    pub minute: u64,
    pub second: u64,
    pub weekday: u64,
}

// The day and the second of an instant by a clock that is ahead. No i32 brings an instant back from beyond these bounds; inside them the sum
// fits.
fn local_moment(instant: i64, offset: i32) -> Option<Moment>
    ensures { MomentOf (instant +ℤ offset) result }
{
    if instant < -70000000000 {
        return None;
    }
    if 260000000000 < instant {
        return None;
    }
    moment_of(instant + offset as i64)
}

// What a clock shows at a second of a day.
fn shown(moment: Moment) -> Reading
    requires { InDays moment.day moment.second }
    ensures { Shows (instant_of moment.day moment.second) result }
{
    let date = date_at(moment.day);
    let second = moment.second;
    Reading {
        year: date.year,
        month: date.month,
        day: date.day,
        hour: second / 3600,
        minute: second / 60 % 60,
        second: second % 60,
        weekday: weekday_of(moment.day),
    }
}

// What a clock shows at an instant, so many seconds east of UT; none outside the years 1 to 9999.
pub fn civil_time(instant: i64, offset: i32) -> Option<Reading>
    ensures { CivilOf instant offset result }
{
    let moment = local_moment(instant, offset)?;
    Some(shown(moment))
}
