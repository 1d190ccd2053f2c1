// How much a border may have: document 01, "The writer"; `Limits.antt` names them in the definitions.

pub const MOST_POINTS: usize = 65535;

pub const MOST_PIECES: usize = 16;
