// Salvage of a damaged file: what is kept of it, and why the rest is dropped.
#![tactic(auto)]

pub mod data;
pub mod entries;
pub mod entry;
pub mod moves;
pub mod rescue;
pub mod strings;
pub mod walk;
