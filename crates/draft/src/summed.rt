// The totals of the yards that a builder holds, and its file.
pub mod arrange;
pub mod file;
pub mod finish;
pub mod rest;
pub mod sums;
