// The office's functions for C, in libuskelzar-office.a: include/uskelzar.h has them. Each calls the library's function of its name and promises the same.
#![tactic(auto)]

pub mod borders;
pub mod calls;
pub mod salvaged;
pub mod tiles;
pub mod yards;
