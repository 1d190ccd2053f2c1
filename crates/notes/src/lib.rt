// What a builder notes of its yards, so that one more is added without all being summed again.
#![tactic(auto)]

pub mod chains;
pub mod nearby;
pub mod noted;
pub mod quick;
pub mod weighed;
