// A bundle of zones, document 03's S-2: where a zone's TZif file lies.
#![tactic(auto)]

pub mod bytes;
pub mod find;
pub mod head;
pub mod wanted;
