// Rust's `as` and `sqrt` on f32.
pub mod bits;
pub mod cut;
pub mod fixed;
pub mod nearest;
pub mod root;
