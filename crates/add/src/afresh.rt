// A builder's lists summed up with a yard more, and noted afresh: document 02, Q-5.
pub mod join;
pub mod measure;
pub mod note;
