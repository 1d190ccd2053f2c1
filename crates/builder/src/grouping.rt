// Equal texts and equal records, found by sorted hashes.
pub mod first;
pub mod items;
pub mod keys;
pub mod texts;
