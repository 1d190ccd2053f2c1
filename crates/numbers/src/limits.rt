// Limits that more than one crate asks for; `Limits.antt` names them in the definitions.

// Bytes of a file, and of the writer's earlier data: 1 GiB.
pub const LARGEST_FILE: usize = 0x4000_0000;

// Bytes of a text that is written into a file.
pub const LONGEST_TEXT: usize = 255;
