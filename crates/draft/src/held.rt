// A builder that holds yards, and its running totals: document 02, Q-5.
pub(crate) mod own;
pub mod room;
pub mod state;
