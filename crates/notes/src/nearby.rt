// What a table grows by with one entry more: document 02, Q-5.
pub mod near;
