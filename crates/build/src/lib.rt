// Files built from yards: document 02, Q-4.
#![tactic(auto)]

pub mod asked;
pub mod checks;
pub mod draw;
pub mod entries;
pub mod file;
pub mod fill;
mod lent;
pub mod lists;
pub mod metadata;
pub mod recording;
pub mod room;
pub mod write;
pub mod zero;
