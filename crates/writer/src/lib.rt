// How a border is written, and how much it may have.
#![tactic(auto)]

pub mod limits;
pub mod write;

// For this crate alone: their functions may require something of the caller.
mod bytes;
mod checks;
mod moves;
mod pieces;
