// A checked yard, its border drawn, joined to a builder whose lists have a place for it: document 02, Q-5.
pub mod join;
pub mod settle;
