// Numbers in bytes.
ghost use Rattle.std.specs.Prelude.{◌≡◌, ◌+◌, ◌≤◌, length, get_or};
ghost use Rattle.line.specs.Bytes.{word_at};

// The byte at a place; 0 past the end.
// Stays apart: one line of std's words.
pub fn byte_at(bytes: &[u8], at: usize) -> u8
    ensures { result ≡ get_or bytes.now at 0 }
{
    bytes.get(at).copied().unwrap_or(0)
}

// Four bytes, low byte first.
pub fn word_at(bytes: &[u8], at: usize) -> u32
    requires { at + 4 ≤ length bytes.now }
    ensures { result ≡ word_at bytes.now at }
{
    let first = bytes[at] as u32;
    let second = bytes[at + 1] as u32;
    let third = bytes[at + 2] as u32;
    let fourth = bytes[at + 3] as u32;
    first + 256 * second + 65536 * third + 16777216 * fourth
}
