// Marks along a border: a verdict that does not read the stretches which lie to one side of the location and, with the distance, far from it.
#![tactic(auto)]

pub mod judge;
pub mod words;
