// What a border says of a location.
#![tactic(auto)]

pub mod afar;
pub mod distance;
pub mod edge;
pub mod far;
pub mod field;
pub mod glide;
pub mod judge;
pub mod step;
pub mod winding;
