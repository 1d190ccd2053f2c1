// Texts in the file, which end at a NUL or a newline; and a text at the start of a lent one.
ghost use Rattle.std.specs.Prelude.{◌≡◌, ◌+◌, ◌≤◌, length, get_or};
ghost use Rattle.tzif.specs.Text.{is_stop, run_to, AtMost};
ghost use Rattle.numbers.specs.Lists.{padded};

use crate::number::octet;

// Stays apart: `none_or_all` (header.rt) has its shape alone.
fn is_stop(other: usize, byte: usize) -> bool
    ensures { result ≡ is_stop other byte }
{
    if byte == 0 {
        return true;
    }
    byte == other
}

// How many octets from a place on, of so many at most, stand before a NUL or one other octet.
pub(crate) fn run_to(other: usize, file: &[u8], from: usize, most: usize) -> usize
    requires { «from» + most ≤ length file.now }
    ensures { AtMost most result (run_to other file.now «from» most) }
{
    for i in 0..most {
        let byte = octet(file, from + i);
        if is_stop(other, byte) {
            return i;
        }
    }
    most
}

fn octet_or_zero(name: &[u8], i: usize) -> u8
    ensures { result ≡ get_or name.now i 0 }
{
    if i < name.len() {
        return name[i];
    }
    0
}

// A name at the start of a lent text, zeros behind it.
// Stays a loop: `copy_from_slice` calls memmove, and the archives call nothing but memset and memcpy.
pub(crate) fn lend(name: &[u8], text: &mut [u8])
    requires { length name.now ≤ length text.old }
    ensures { text.new ≡ padded (length text.old) name.now }
{
    let mut i = 0;
    while i < text.len() {
        text[i] = octet_or_zero(name, i);
        i += 1;
    }
}
