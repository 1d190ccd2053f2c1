// A builder with a yard more, and what is noted beside it: document 02, Q-5.
pub mod grow;
