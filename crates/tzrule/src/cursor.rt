// A place in a text, or its end: what is read from, and what is left behind what was read.
ghost use Rattle.std.specs.Prelude.{◌≤◌, length};

use crate::fault::Fault;

#[derive(Clone, Copy)]
pub(crate) struct Cursor<'a> {
    pub(crate) text: &'a [u8],
    pub(crate) at: usize,
    ghost short: { length text.now ≤ 1073741824 },
    ghost inside: { at ≤ length text.now },
}

// What was read, and the cursor behind it; or the place of a fault.
pub(crate) type Read<'a, T> = Result<(T, Cursor<'a>), Fault>;
