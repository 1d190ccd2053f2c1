// Numbers of the PLB format: varints read forward and backward, the signed form, and the two halves of a point; refusals by their number, and what a call says to C.
#![tactic(auto)]

pub mod fault;
pub mod float;
pub mod limits;
pub mod point;
pub mod refusal;
pub mod said;
pub mod varint;
pub mod write;
