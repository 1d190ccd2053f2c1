// The metadata section of a plan's values, laid out.
pub mod section;
