// The lists that a build works in, lent together.
#[derive(Drop)]
pub struct Lists<'a> {
    pub starts: &'a mut [u32],
    pub keys: &'a mut [u64],
    pub spare: &'a mut [u64],
    pub kept: &'a mut [u32],
    pub held: &'a mut [u8],
    pub words: &'a mut [u32],
    pub places: &'a mut [u32],
    pub boxes: &'a mut [i32],
    pub bytes: &'a mut [u8],
}
