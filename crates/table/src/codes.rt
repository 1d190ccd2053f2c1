// Document 01's numbers, by name: end marks and kinds of hits. No other file of this crate has one of them bare.

// End marks.
pub const WHOLE: u8 = 1;

pub const UNREADABLE: u8 = 2;

pub const BROKEN: u8 = 3;

pub const OUT_OF_ORDER: u8 = 4;

// Kinds of hits; none is no hit.
pub const NO_KIND: u32 = 0;

pub const IN_ZONE: u32 = 1;

pub const EXCLUDED: u32 = 2;

pub const ON_VERTEX: u32 = 3;

pub const ON_SEGMENT: u32 = 4;
