// A yard that is offered to a builder: its checks, its border, and its place in the builder's lists. Document 02, Q-5.
pub mod checks;
pub mod draw;
pub(crate) mod offer;
pub mod put;
