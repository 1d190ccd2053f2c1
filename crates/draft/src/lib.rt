// A builder that holds yards between calls: its state and its totals, and the file that is made of it.
#![tactic(auto)]

pub mod held;
pub mod summed;
