// Instants, in seconds from the start of 1970, as a day and a second of the day.
ghost use Rattle.calendar.specs.Moments.{MomentOf};

// A second of a day of the years 1 to 9999.
#[derive(Clone, Copy)]
pub struct Moment {
    pub day: u64,
    pub second: u64,
}

// The day and the second of an instant; none outside these years.
// Stays a function: the definitions' word, and outside the years there is none.
pub fn moment_of(instant: i64) -> Option<Moment>
    ensures { MomentOf instant result }
{
    if instant < -62135596800 {
        return None;
    }
    if 253402300799 < instant {
        return None;
    }
    let since = (instant + 62135596800) as u64;
    let day = since / 86400;
    let second = since % 86400;
    Some(Moment { day, second })
}
