// The header of a PLB file and its strings: opening a file, and how a string goes out into a lent text.
#![tactic(auto)]

pub mod codes;
pub mod field;
pub mod header;
pub mod opening;
pub mod text;
pub mod utf8;
pub mod zero;
