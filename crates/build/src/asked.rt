// What a file is to be like.

// Its type, version and precision, and how many names there are.
// Stays a number: the kind is a byte of C's, which may be any; building refuses the unknown with 27.
#[derive(Clone, Copy)]
pub struct Asked {
    pub kind: u8,
    pub version: u8,
    pub precision: u8,
    pub names: u32,
}
