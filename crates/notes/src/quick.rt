// The totals of a builder with one yard more, by what is noted beside it: document 02, Q-5.
pub mod place;
pub mod step;
