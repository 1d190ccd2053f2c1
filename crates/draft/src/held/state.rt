// A builder's numbers. What it holds lies in the lists that are lent with it.
// Stays a number: C keeps the builder's numbers between calls, and may forge the kind.
#[derive(Clone, Copy)]
pub struct Held {
    // What the file to come is like.
    pub kind: u8,
    pub version: u8,
    pub precision: u8,
    pub names: u32,
    // How long it may be, and how long its header is up to the sizes.
    pub room: usize,
    pub head: usize,
    // The bytes of the names and the notice, and of all texts.
    pub front: usize,
    pub strings: usize,
    // The totals: the bytes of the three sections, how many yards there are, the greatest of their lower latitudes.
    pub table: usize,
    pub metadata: usize,
    pub bytes: usize,
    pub yards: usize,
    pub greatest: i32,
}
