// Salvage itself: the list of dropped entries, the new file, and the reply.
pub mod copy;
pub mod lines;
pub mod reply;
pub mod texts;
pub mod whole;
