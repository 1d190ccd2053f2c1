// An atlas beside a PLB file: its index, and marks along the long borders, so that a lookup reads little of them. `build_atlas`, `is_atlas` and `lookup_atlas` ask nothing.
#![tactic(auto)]

pub mod build;
pub mod course;
mod entry;
pub mod lookup;
pub mod own;
pub mod parts;
pub mod put;
pub mod same;
pub mod search;
pub mod simple;
pub mod span;
mod words;
