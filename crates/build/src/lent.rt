// A plan as it is lent: what the file is to be like, and flat lists.
use crate::asked::Asked;

#[derive(Clone, Copy)]
pub(crate) struct Lent<'a> {
    pub asked: Asked,
    // Four words a yard: how many latitudes, longitudes, pieces and values.
    pub yards: &'a [u32],
    pub lats: &'a [i32],
    pub lons: &'a [i32],
    // Five words a piece.
    pub pieces: &'a [u32],
    // Of the names, the notice and the values, yard by yard.
    pub lengths: &'a [u32],
    pub texts: &'a [u8],
}
