// Days: their weekdays and their dates.
ghost use Rattle.calendar.specs.{Calendar.{weekday_of}, Dates.{DateOf}};
ghost use Rattle.std.specs.Prelude.{◌<◌, ◌≡◌};

use crate::month::month_at;
use crate::year::{days_of_years, is_leap, year_at};

// A date, its month and its day counted from 1.
#[derive(Clone, Copy)]
pub struct Date {
    pub year: u64,
    pub month: u64,
    pub day: u64,
}

// The weekday of a day: 0 is Sunday, 6 Saturday.
pub fn weekday_of(day: u64) -> u64
    ensures { result ≡ weekday_of day }
{
    (day % 7 + 1) % 7
}

// The date of a day up to the end of 9999.
pub(crate) fn date_at(day: u64) -> Date
    requires { day < 3652059 }
    ensures { DateOf day result.year result.month result.day }
{
    let year = year_at(day);
    let place = day - days_of_years(year - 1);
    let at = month_at(is_leap(year), place);
    Date {
        year,
        month: at.month,
        day: at.day,
    }
}
