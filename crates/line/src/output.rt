// Bytes and numbers on standard output. That one could not be written is not told: the next one fails too.
// Stays, point 2: bytes and numbers are two calls of the library, of one line each.
// Stays, point 4: they are std's calls, whose answer is let go.
use std::io::Stdout;

pub fn say(out: Stdout, bytes: &[u8]) {
    let _ = out.write_all(bytes);
}

// The number's decimal digits.
pub fn say_number(out: Stdout, n: u64) {
    let _ = out.print(n);
}
