// Numbers in a record, low byte first.
// Stays, point 4: a list is held against a record, which may be cut (0 past its end), so no `==` of slices serves.
ghost use Rattle.std.specs.Prelude.{◌≡◌, ◌↔◌, IsTrue};

// The byte at a place; 0 past the end.
pub fn byte_at(record: &[u8], at: usize) -> u8 {
    record.get(at).copied().unwrap_or(0)
}

// The four bytes at a place; 0 where one of them is past the end.
pub fn word_at(record: &[u8], at: usize) -> u32 {
    if record.len() < 4 {
        return 0;
    }
    if record.len() - 4 < at {
        return 0;
    }
    u32::from(record[at])
        | u32::from(record[at + 1]) << 8
        | u32::from(record[at + 2]) << 16
        | u32::from(record[at + 3]) << 24
}

// The same, and as an index.
pub fn long_at(record: &[u8], at: usize) -> u64 {
    u64::from(word_at(record, at))
}

pub fn size_at(record: &[u8], at: usize) -> usize {
    word_at(record, at) as usize
}

// The eight bytes at a place as a signed number.
pub fn instant_at(record: &[u8], at: usize) -> i64 {
    let next = at.wrapping_add(4);
    (long_at(record, at) | long_at(record, next) << 32).cast_signed()
}

// Whether a record has these words from a place on. It and the next stay two: past the end both a word and a byte are 0, each by its own reader.
// Stays apart: another reader and another step than of bytes.
pub fn same_words_at(words: &[u32], record: &[u8], from: usize) -> bool {
    let mut at = from;
    for word in words {
        if *word != word_at(record, at) {
            return false;
        }
        at = at.wrapping_add(4);
    }
    true
}

// The same of bytes.
// Stays apart: another reader and another step than of words.
pub fn same_bytes_at(bytes: &[u8], record: &[u8], from: usize) -> bool {
    let mut at = from;
    for byte in bytes {
        if *byte != byte_at(record, at) {
            return false;
        }
        at = at.wrapping_add(1);
    }
    true
}

// Whether both are the same bytes.
pub fn same_bytes(a: &[u8], b: &[u8]) -> bool
    ensures { IsTrue result ↔ (a.now ≡ b.now) }
{
    a == b
}

pub fn same_words(words: &[u32], bytes: &[u8]) -> bool {
    same_words_at(words, bytes, 0)
}
