// One yard more: document 02, Q-5.
#![tactic(auto)]

pub mod adding;
pub mod afresh;
pub mod growing;
pub mod joining;
pub mod offered;
pub mod surely;
