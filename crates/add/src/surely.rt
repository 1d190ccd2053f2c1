// A yard more in a builder by a sure step: document 02, Q-5.
pub mod sure;
