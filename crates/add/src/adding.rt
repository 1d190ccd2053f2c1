// A yard more in a builder: document 02, Q-5.
pub mod add;
pub mod room;
