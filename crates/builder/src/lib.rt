// Files built from yards: document 02, Q-4.
#![tactic(auto)]

pub mod borders;
pub mod boxes;
pub mod counts;
pub mod drawing;
pub mod entry;
pub mod grouping;
pub mod head;
pub mod put;
pub mod records;
pub mod table;
pub mod texts;
pub mod yards;
