// Years: which are leap years, the days up to each, and the year of a day.
ghost use Rattle.std.specs.Prelude.{◌≡◌, ◌≤◌, ◌<◌};
ghost use Rattle.calendar.specs.Calendar.{is_leap, days_of_years, InYear};

// Is it a leap year?
pub fn is_leap(year: u64) -> bool
    ensures { result ≡ is_leap year }
{
    if year % 100 == 0 {
        return year % 400 == 0;
    }
    year % 4 == 0
}

// The days of the years from 1 to this one.
pub(crate) fn days_of_years(year: u64) -> u64
    requires { year ≤ 20000 }
    ensures { result ≡ days_of_years year }
{
    365 * year + year / 4 - year / 100 + year / 400
}

// The year of a day up to the end of 9999. 400 years have 146097 days: a guess by that mean is at most one year off.
pub(crate) fn year_at(day: u64) -> u64
    requires { day < 3652059 }
    ensures { InYear result day }
{
    let before = day * 400 / 146097;
    if day < days_of_years(before) {
        return before;
    }
    let guess = before + 1;
    if days_of_years(guess) <= day {
        return guess + 1;
    }
    guess
}
