// A tile index beside a PLB file: for each of 32 by 64 tiles the box entries that meet it, so that a lookup reads only those. No function that a crate above
// can call has a `requires`.
#![tactic(auto)]

pub mod build;
mod entries;
mod kept;
mod lists;
pub mod lookup;
pub mod own;
pub mod place;
pub mod tied;
pub mod tiles;
pub mod words;
