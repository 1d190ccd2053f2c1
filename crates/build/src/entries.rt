// The entries of a table, in order: the yards' boxes, and words by their lower latitudes.
pub mod corners;
pub mod order;
pub mod south;
