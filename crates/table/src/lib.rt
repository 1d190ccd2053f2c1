// The box table of a PLB file: its rows, the search of them at a location, the hits and how they are merged into matches.
#![tactic(auto)]

pub mod codes;
pub mod find;
pub mod hits;
pub mod listed;
pub mod location;
pub mod marked;
mod merge;
mod pass;
mod rest;
pub mod rows;
pub mod search;
pub mod table;
mod usual;
