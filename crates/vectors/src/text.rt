// Words of a line, the numbers and bytes that they spell, and whether one is the spelling of a number. Words are parted by a space or a comma.
ghost use Rattle.std.specs.Prelude.{◌<◌, ◌≤◌, length};
ghost use Rattle.std.specs.Counts.{IsPrefixLen};

// Stays apart: a space or a comma; another test of two bytes means something else.
fn is_gap(byte: u8) -> bool {
    byte == b' ' || byte == b','
}

// Words still to pass over, once a byte has been passed.
fn left_after(left: usize, byte: u8) -> usize
    requires { 0 < left }
{
    if is_gap(byte) { left - 1 } else { left }
}

// Where word k begins, or the line's end.
fn word_start(line: &[u8], k: usize) -> usize
    ensures { result ≤ length line.now }
{
    let mut left = k;
    for i in 0..line.len() {
        if left == 0 {
            return i;
        }
        left = left_after(left, line[i]);
    }
    line.len()
}

fn word_end(line: &[u8], start: usize) -> usize
    requires { start ≤ length line.now }
    ensures behind { start ≤ result }
    ensures within { result ≤ length line.now }
{
    for i in start..line.len() {
        if is_gap(line[i]) {
            return i;
        }
    }
    line.len()
}

// Word k of a line, the first one being 0; empty where there are fewer.
pub fn word(line: &[u8], k: usize) -> &[u8] {
    let start = word_start(line, k);
    let end = word_end(line, start);
    &line[start..end]
}

// ---- numbers

fn with_digit(value: u64, byte: u8) -> u64 {
    if byte < b'0' {
        return value;
    }
    if b'9' < byte {
        return value;
    }
    if 1844674407370955161 < value {
        return value;
    }
    (value * 10).wrapping_add(u64::from(byte - b'0'))
}

// The digits of a word; a sign is passed over.
// Stays by hand: other bytes are passed over and a number too large stops growing; no `parse` reads a word so.
pub fn decimal(word: &[u8]) -> u64 {
    word.iter().fold(0, |value, byte| with_digit(value, *byte))
}

pub fn is_negative(word: &[u8]) -> bool {
    word.first() == Some(&b'-')
}

// -size, for a size up to 2^63: as an i64 the least one is no negation.
fn below_zero(size: u64) -> i64 {
    if size == 0 {
        return 0;
    }
    if 0x8000_0000_0000_0000 < size {
        return 0;
    }
    -1 - ((size - 1) as i64)
}

fn from_zero(size: u64) -> i64 {
    if 0x7fff_ffff_ffff_ffff < size {
        return 0;
    }
    size as i64
}

fn integer(word: &[u8]) -> i64 {
    if is_negative(word) {
        below_zero(decimal(word))
    } else {
        from_zero(decimal(word))
    }
}

// ---- a recorded number is the spelling of what came out; a word that spells no number is none, and not 0

// Stays an array: a number has at most twenty digits.
pub fn is_decimal(word: &[u8], value: u64) -> bool {
    let mut digits = [0u8; 20];
    let size = io::decimal(value, &mut digits);
    word == &digits[..size]
}

// Where a word's digits begin.
fn sign_end(word: &[u8]) -> usize
    ensures { result ≤ length word.now }
{
    if word.len() == 0 {
        return 0;
    }
    if word[0] == b'-' { 1 } else { 0 }
}

// What does not fit an i64 reads as 0 too, so that 0 is told by its digits.
pub fn is_signed(word: &[u8], value: i64) -> bool {
    let size = decimal(word);
    let start = sign_end(word);
    if !is_decimal(&word[start..], size) {
        return false;
    }
    if value == 0 {
        return size == 0;
    }
    integer(word) == value
}

fn hex_digit(n: u32) -> u8 {
    let digit = (n % 16) as u8;
    if digit < 10 { 48 + digit } else { 55 + digit }
}

// Eight digits, the highest first.
pub fn is_bits(word: &[u8], bits: u32) -> bool {
    let digits = [
        hex_digit(bits >> 28),
        hex_digit(bits >> 24),
        hex_digit(bits >> 20),
        hex_digit(bits >> 16),
        hex_digit(bits >> 12),
        hex_digit(bits >> 8),
        hex_digit(bits >> 4),
        hex_digit(bits),
    ];
    word == digits.as_slice()
}

// ---- hexadecimal

fn nibble(byte: u8) -> u8
    ensures { result < 16 }
{
    match byte {
        b'0'..=b'9' => byte - b'0',
        b'A'..=b'F' => byte - b'A' + 10,
        _ => 0,
    }
}

pub fn hex(word: &[u8]) -> u32 {
    let mut value: u32 = 0;
    for byte in word {
        value = value % 0x1000_0000 * 16 + u32::from(nibble(*byte));
    }
    value
}

// The bytes that a word spells, as many as there is room for; their number.
pub fn bytes(word: &[u8], out: &mut [u8]) -> usize
    ensures { IsPrefixLen result out.new }
{
    let size = (word.len() / 2).min(out.len());
    for i in 0..size {
        out[i] = nibble(word[2 * i]) * 16 + nibble(word[2 * i + 1]);
    }
    size
}
