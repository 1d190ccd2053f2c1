// UTF-8 as RFC 3629 has it, over bytes that are stored XOR 0x80.
ghost use Rattle.std.specs.Prelude.{◌≡◌, map, Some};
ghost use Rattle.header.specs.Utf8.{pending_of, told_step, begun_by, followed, is_utf8, unmasked};

// What a character that has begun still lacks: so many bytes, the first of them in a range, the others tails.
#[derive(Clone, Copy)]
struct Due {
    low: u8,
    high: u8,
    left: u8,
}

// Stays apart: it makes a value of its own type; one of equal shape makes another's.
fn wants(low: u8, high: u8, left: u8) -> Option<Due>
    ensures { result ≡ Some (record { low = low; high = high; left = left }) }
{
    Some(Due { low, high, left })
}

// What a character that begins with this byte lacks, if one does.
fn begin(first: u8) -> Option<Due>
    ensures { told_step result ≡ begun_by first }
{
    match first {
        0x00..=0x7F => wants(0x80, 0xBF, 0),
        0xC2..=0xDF => wants(0x80, 0xBF, 1),
        0xE0 => wants(0xA0, 0xBF, 2),
        0xE1..=0xEC => wants(0x80, 0xBF, 2),
        0xED => wants(0x80, 0x9F, 2),
        0xEE..=0xEF => wants(0x80, 0xBF, 2),
        0xF0 => wants(0x90, 0xBF, 3),
        0xF1..=0xF3 => wants(0x80, 0xBF, 3),
        0xF4 => wants(0x80, 0x8F, 3),
        _ => None,
    }
}

// What is lacking after one more byte, if a character can have it here.
fn follow(pending: Due, byte: u8) -> Option<Due>
    ensures { told_step result ≡ followed (pending_of pending) byte }
{
    if pending.left == 0 {
        return begin(byte);
    }
    if byte < pending.low || pending.high < byte {
        return None;
    }
    wants(0x80, 0xBF, pending.left - 1)
}

// Whether the bytes are UTF-8 once each is taken XOR 0x80.
pub fn is_utf8(stored: &[u8]) -> bool
    ensures { result ≡ is_utf8 (map unmasked stored.now) }
{
    let mut pending = Due {
        low: 0x80,
        high: 0xBF,
        left: 0,
    };
    for byte in stored {
        let Some(next) = follow(pending, *byte ^ 0x80) else {
            return false;
        };
        pending = next;
    }
    pending.left == 0
}
