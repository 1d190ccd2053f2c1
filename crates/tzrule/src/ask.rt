// A TZ string, asked at an instant.
ghost use Rattle.std.specs.Prelude.{◌≡◌, ◌^◌, ◌<◌, true};
ghost use Rattle.tzrule.specs.Ask.{Ruled, corrected, in_years, clock_at, ask};

use crate::rule::{Clock, Tz};
use crate::summer::summer_at;

// Which clock holds; 1 for summer time, else 0.
// Stays a number: `daylight` is a word of the reply that C gets.
#[derive(Clone, Copy)]
pub struct Time {
    pub clock: Clock,
    pub daylight: u8,
}

// Years 1 to 9999. Instants are given more 2^63.
// Stays a function: a test, no conversion.
fn in_years(u: u64) -> bool
    ensures { result ≡ in_years u }
{
    if u < 9223371974719179008 {
        return false;
    }
    u <= 9223372290257076607
}

// The clock that holds in these years.
fn clock_at(tz: Tz, u: u64) -> Time
    requires { (in_years u ≡ true) × Ruled tz }
    ensures { result ≡ clock_at tz u }
{
    match tz {
        Tz::Fixed(clock) => Time { clock, daylight: 0 },
        Tz::Changing(rule) => {
            if summer_at(rule, u - 9223371962095188608) {
                let clock = rule.daylight;
                return Time { clock, daylight: 1 };
            }
            let clock = rule.standard;
            Time { clock, daylight: 0 }
        }
    }
}

// What the string says in these years, and nothing outside them.
fn ask_in_years(tz: Tz, u: u64) -> Option<Time>
    requires { Ruled tz }
    ensures { result ≡ ask tz u }
{
    if in_years(u) {
        return Some(clock_at(tz, u));
    }
    None
}

// The same at an instant less a correction, which is given more 2^31. Far outside these years nothing is added, so that nothing overflows.
pub fn ask_at(tz: Tz, instant: usize, correction: usize) -> Option<Time>
    requires { Ruled tz × (correction < 2 ^ 32) }
    ensures { result ≡ ask tz (corrected instant correction) }
{
    if instant < 9223371900000000000 {
        return None;
    }
    if 9223373000000000000 < instant {
        return None;
    }
    let u = instant + 0x8000_0000 - correction;
    ask_in_years(tz, u as u64)
}
