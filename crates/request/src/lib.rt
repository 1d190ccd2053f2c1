// A request, document 03's S-1: a sentence of a receiver or a plain line, as the fix and the instant that are asked about.
#![tactic(auto)]

pub mod clock;
pub mod degrees;
pub mod fraction;
pub mod number;
pub mod plain;
pub mod read;
pub mod sentence;
pub mod text;
