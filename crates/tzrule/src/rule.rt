// What a TZ string says: the clock of the whole year, or two and when they change.
use crate::name::Span;
use calendar::rule::When;

// The name of a time, and its seconds west of UT, more 604800.
#[derive(Clone, Copy)]
pub struct Clock {
    pub name: Span,
    pub west: u64,
}

// A day, and the local time on it in seconds after midnight, more 604800.
#[derive(Clone, Copy)]
pub struct Change {
    pub when: When,
    pub time: u64,
}

// Standard time, summer time, and where summer time starts and ends.
#[derive(Clone, Copy)]
pub struct Rule {
    pub standard: Clock,
    pub daylight: Clock,
    pub start: Change,
    pub end: Change,
}

#[derive(Clone, Copy)]
pub enum Tz {
    Fixed(Clock),
    Changing(Rule),
}
