// A yard that is offered: its border, the words of its pieces, the lengths and the bytes of its values.
#[derive(Clone, Copy)]
pub(crate) struct Offer<'a> {
    pub lats: &'a [i32],
    pub lons: &'a [i32],
    pub pieces: &'a [u32],
    pub sizes: &'a [u32],
    pub values: &'a [u8],
}
