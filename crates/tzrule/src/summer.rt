// Summer time. Instants are seconds from the first midnight of the first year, more 1209600.
// Stays, point 2: `start_of` and `end_of` are a change each, with the offset of the other clock.
ghost use Rattle.std.specs.Prelude.{◌≡◌, ◌≤◌, ◌<◌};
ghost use Rattle.tzrule.specs.Summer.{change_of, start_of, end_of, close_of, is_summer, IsChange, IsRule, InYears};

use crate::rule::{Change, Rule};
use calendar::rule::day_of;

// The instant of a change in a year, by the offset that it ends.
fn change_of(change: Change, west: u64, year: u64) -> u64
    requires { (year ≤ 11000) × (west ≤ 1209600) × IsChange change }
    ensures { result ≡ change_of change west year }
{
    let when = change.when;
    let day = day_of(when, year);
    86400 * day + change.time + west
}

fn start_of(rule: Rule, year: u64) -> u64
    requires { (year ≤ 11000) × IsRule rule }
    ensures { result ≡ start_of rule year }
{
    let start = rule.start;
    let standard = rule.standard;
    change_of(start, standard.west, year)
}

fn end_of(rule: Rule, year: u64) -> u64
    requires { (year ≤ 11000) × IsRule rule }
    ensures { result ≡ end_of rule year }
{
    let end = rule.end;
    let daylight = rule.daylight;
    change_of(end, daylight.west, year)
}

// Where the summer of a year closes.
fn close_of(rule: Rule, year: u64) -> u64
    requires { (year ≤ 10999) × IsRule rule }
    ensures { result ≡ close_of rule year }
{
    let end = end_of(rule, year);
    if end < start_of(rule, year) {
        return end_of(rule, year + 1);
    }
    end
}

// Is it summer? The mean year has 31556952 seconds; two years before the guess by it have begun, and at most three more have.
pub(crate) fn summer_at(rule: Rule, instant: u64) -> bool
    requires { IsRule rule × InYears instant }
    ensures { result ≡ is_summer rule instant }
{
    let guess = instant / 31556952;
    let mut year = guess - 2;
    // Stays a loop (must-fail year_of_the_instant): it looks for a year, whose number only grows.
    while start_of(rule, year + 1) <= instant {
        year += 1;
    }
    instant < close_of(rule, year)
}
