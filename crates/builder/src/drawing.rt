// What a file is like, and its data section, border by border.
pub mod form;
pub mod section;
pub mod yard;
