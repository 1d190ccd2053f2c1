// TZif files as RFC 8536 and RFC 9636 have them: headers and data blocks with all their checks, the footer, and local time by the transitions.
#![tactic(auto)]

pub mod block;
mod check;
pub mod header;
pub mod leap;
pub mod local;
pub mod number;
mod part;
pub mod place;
pub mod refusal;
pub mod text;
pub mod times;
pub mod zone;
