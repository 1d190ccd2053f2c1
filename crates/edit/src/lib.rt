// The calls that begin, empty, shorten and change a builder: document 02, Q-5.
#![tactic(auto)]

pub mod changing;
pub mod replacing;
