// What the programs that take standard input and print lines share.
#![tactic(auto)]

pub mod bytes;
pub mod clock;
pub mod input;
pub mod output;
pub mod put;
