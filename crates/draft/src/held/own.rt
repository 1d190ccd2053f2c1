// What a builder holds, as it is lent to be read: four numbers of a box and a border's place for each yard, the lengths and the bytes of all texts, the data section.
#[derive(Clone, Copy)]
pub(crate) struct Own<'a> {
    pub boxes: &'a [i32],
    pub borders: &'a [u32],
    pub lengths: &'a [u32],
    pub texts: &'a [u8],
    pub bytes: &'a [u8],
}
