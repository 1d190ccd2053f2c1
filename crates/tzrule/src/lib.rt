// The TZ string of a TZif footer: its text, and the summer time of its rule.
#![tactic(auto)]

pub mod ask;
mod cursor;
pub mod date;
pub mod fault;
pub mod name;
pub mod number;
pub mod rule;
pub mod string;
pub mod summer;
pub mod time;
