// Bytes of a bundle.
ghost use Rattle.std.specs.Prelude.{◌≡◌, ◌++◌, map, ◌+◌, ◌≤◌, ◌<◌, length, get_or, drop};
ghost use Rattle.bundle.specs.Bundle.{word_at, agrees, xored};

fn wide(byte: u8) -> u64
    ensures { (result ≡ byte) × (result < 256) }
{
    byte as u64
}

// Four bytes, high byte first.
pub(crate) fn word_at(bundle: &[u8], place: usize) -> u64
    requires { place + 4 ≤ length bundle.now }
    ensures { (result ≡ word_at bundle.now place) × (result < 4294967296) }
{
    let first = wide(bundle[place]);
    let second = wide(bundle[place + 1]);
    let third = wide(bundle[place + 2]);
    let fourth = wide(bundle[place + 3]);
    first * 0x100_0000 + second * 0x1_0000 + third * 0x100 + fourth
}

// A byte of a name that stands in two parts under a mask; 0 behind it.
pub(crate) fn byte_of(prefix: &[u8], id: &[u8], at: usize, mask: u8) -> u8
    ensures { result ≡ get_or (map (xored mask) (prefix.now ++ id.now)) at 0 }
{
    let size = prefix.len();
    if at < size {
        return prefix[at] ^ mask;
    }
    let rest = at - size;
    if rest < id.len() {
        return id[rest] ^ mask;
    }
    0
}

// So many bytes from a place on are those of a name that stands in two parts under a mask, and zeros behind it.
pub(crate) fn agrees(
    bundle: &[u8],
    place: usize,
    prefix: &[u8],
    id: &[u8],
    size: usize,
    mask: u8,
) -> bool
    requires { place + size ≤ length bundle.now }
    ensures { result ≡ agrees size (drop place bundle.now) (map (xored mask) (prefix.now ++ id.now)) }
{
    // The name stands in two parts under a mask, so there is no slice to compare.
    for at in 0..size {
        if bundle[place + at] != byte_of(prefix, id, at, mask) {
            return false;
        }
    }
    true
}
