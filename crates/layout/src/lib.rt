// How a built file lies: its entries in order, and the least length of its records. All over plain numbers.
#![tactic(auto)]

pub mod order;
pub mod records;
