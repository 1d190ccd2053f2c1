// Borders: their points as they are read.
#![tactic(auto)]

pub mod place;
pub mod reader;
