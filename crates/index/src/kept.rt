// The file's first bytes in the index, four a word, so that an index can be held against a file.
// Stays, point 1: behind the end the definition has 0 (slice_index), so that is a byte and no sign.
// Stays, point 6: the file may be shorter than `size` bytes, and what it lacks is 0 (kept_of), so no slice says as much.
ghost use Rattle.std.specs.Prelude.{◌≡◌, ◌^◌, ◌<◌, take, slice_index};
ghost use Rattle.writer.specs.inner.Stored.{Stored};
ghost use Rattle.index.specs.Index.{four_at, kept_of};

use crate::words::put;

fn wide(byte: u8) -> u32
    ensures { (result ≡ byte) × (result < 256) }
{
    byte as u32
}

// A byte of the first so many, or 0.
fn byte_of(file: &[u8], size: usize, place: usize) -> u32
    ensures { (result ≡ slice_index (take size file.now) place) × (result < 256) }
{
    if place < size {
        if place < file.len() {
            return wide(file[place]);
        }
    }
    0
}

// Stays a clause: a type for a place below 2^60 would be made and taken apart at each sum.
pub(crate) fn four_at(file: &[u8], size: usize, place: usize) -> u32
    requires { place < 2 ^ 60 }
    ensures { result ≡ four_at (take size file.now) place }
{
    let a = byte_of(file, size, place);
    let b = byte_of(file, size, place + 1);
    let c = byte_of(file, size, place + 2);
    let d = byte_of(file, size, place + 3);
    a + b * 0x100 + c * 0x1_0000 + d * 0x100_0000
}

pub(crate) fn put_kept(file: &[u8], size: usize, index: &mut [u32], from: usize) -> usize
    requires { (size < 2 ^ 32) × (from < 2 ^ 50) }
    ensures { Stored index.old «from» (kept_of file.now size) index.new result }
{
    let mut at = from;
    let mut place = 0;
    // Stays a `while` by fours: `chunks_exact` leaves out the last bytes, and the file may be shorter than the size.
    while place < size {
        at = put(index, at, four_at(file, size, place));
        place += 4;
    }
    at
}
