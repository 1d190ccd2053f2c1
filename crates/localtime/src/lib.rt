// Local time from a TZif file and the TZ string of its footer.
#![tactic(auto)]

pub mod found;
pub mod local;
pub mod rule;
pub mod scale;
