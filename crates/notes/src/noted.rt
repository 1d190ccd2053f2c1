// What is noted beside a builder, so that an add need not sum afresh: document 02, Q-5.
pub mod note;
