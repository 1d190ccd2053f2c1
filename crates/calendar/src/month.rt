// Months: the days up to each, its length, and the month of a day of the year.
// Stays, point 7: `leap` is a bool, as the definitions of specs/Calendar take one.
ghost use Rattle.std.specs.Prelude.{◌≡◌, ◌≤◌, ◌<◌};
ghost use Rattle.calendar.specs.{Calendar.{month_length, days_of_months}, Dates.{PlaceOf}};

// A month of the year and a day of the month, each counted from 1.
#[derive(Clone, Copy)]
pub struct MonthDay {
    pub month: u64,
    pub day: u64,
}

// The days of the months from January to this one.
pub fn days_of_months(leap: bool, month: u64) -> u64
    requires { month ≤ 12 }
    ensures { result ≡ days_of_months leap month }
{
    let days = (367 * month + 5) / 12;
    if month < 2 {
        return days;
    }
    if leap {
        return days - 1;
    }
    days - 2
}

// The length of a month.
pub(crate) fn month_length(leap: bool, month: u64) -> u64
    requires { (1 ≤ month) × (month ≤ 12) }
    ensures { result ≡ month_length leap month }
{
    days_of_months(leap, month) - days_of_months(leap, month - 1)
}

// The month and the day of a day of the year, counted from 0.
pub(crate) fn month_at(leap: bool, place: u64) -> MonthDay
    requires { place < days_of_months leap 12 }
    ensures { PlaceOf leap place result.month result.day }
{
    let mut month: u64 = 1;
    // Stays a loop: it ends at a month, not at the end of a list.
    while days_of_months(leap, month) <= place {
        month += 1;
    }
    let before = days_of_months(leap, month - 1);
    let day = place - before + 1;
    MonthDay { month, day }
}
