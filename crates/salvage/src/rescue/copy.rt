// Bytes of the old file in the new one. What does not fit is counted and left out, up to 2^31.
ghost use Rattle.std.specs.Prelude.{[], ◌∷◌, take, drop};
ghost use Rattle.salvage.specs.inner.Moves.Laid.{Capped};

// Not the writer's: this one counts with a cap (Capped).
fn put_byte(out: &mut [u8], at: usize, byte: u8) -> usize
    ensures { Capped out.old at (byte ∷ []) out.new result }
{
    if 0x8000_0000 <= at {
        return at;
    }
    if at < out.len() {
        out[at] = byte;
        return at + 1;
    }
    at + 1
}

// So many bytes from a place of the file on, or those that it has.
// Stays a length: so many bytes are asked for, whatever the file has.
// Stays by hand: it copies bytes, and prints none.
pub(crate) fn put_span(file: &[u8], from: usize, size: usize, out: &mut [u8], at: usize) -> usize
    ensures { Capped out.old at (take size (drop from file.now)) out.new result }
{
    let mut here = from;
    let mut left = size;
    let mut next = at;
    while 0 < left {
        if file.len() <= here {
            return next;
        }
        next = put_byte(out, next, file[here]);
        here += 1;
        left -= 1;
    }
    next
}
