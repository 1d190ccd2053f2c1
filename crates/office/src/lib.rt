// What a depot's office has beside the printer's functions: borders and files are written, held, salvaged and indexed. For C as `uskelzar` is, which has how a reply goes over.
#![tactic(auto)]

pub mod borders;
pub mod calls;
mod said;
pub mod salvaged;
pub mod tiles;
pub mod yards;
