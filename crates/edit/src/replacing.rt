// Replacing one value of a builder that holds yards: document 02, Q-5.
pub mod check;
pub mod exchange;
pub mod find;
pub mod put;
pub mod replace;
pub mod resum;
