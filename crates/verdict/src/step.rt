// What a walk along a border carries, and how a step of it ends.

#[derive(Clone, Copy)]
pub enum Verdict {
    NotInZone,
    InZone,
    InExcludedZone,
    OnBorderVertex,
    OnBorderSegment,
}

// The winding and the least squared distance so far.
#[derive(Clone, Copy)]
pub struct Tally {
    pub winding: i32,
    pub least: u64,
}

// Why a step along the border does not go on: the location is on the border, or a number passes its range.
// Stays an enum: it is the error of a step's Result.
#[derive(Clone, Copy)]
pub enum Halt {
    Meets(Verdict),
    Over,
}
