// Chains of equal items: the last that was entered, and the one before each.
pub mod enter;
pub mod find;
pub mod texts;
