// The calls that begin, empty and shorten a builder: document 02, Q-5.
pub mod begin;
pub mod clear;
mod copy;
mod cut;
pub mod drop;
mod sum;
