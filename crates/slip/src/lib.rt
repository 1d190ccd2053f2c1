// The slip, document 03's S-3: from a request, a map and a bundle of zones to the printed line, or why there is none.
#![tactic(auto)]

pub mod hour;
pub mod hours;
pub mod lines;
pub mod name;
pub mod slip;
