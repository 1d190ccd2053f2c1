// Numbers into a lent buffer, and two numbers into one.
ghost use Rattle.std.specs.Prelude.{◌≡◌, ◌+◌, if◌then◌else◌};
ghost use lib.{Dec.{ltb}, IntN.{◌-ℤ◌}, ListN.{length, set}};
ghost use Rattle.numbers.specs.Spelling.{varint_of, interleaved, signed_form, Put};

// A byte at a place, or none past the buffer's end; and the place behind it, where there is one.
fn put(out: &mut [u8], place: usize, byte: u8) -> usize
    ensures { (out.new ≡ set out.old place byte)
        × (result ≡ (if ltb place (length out.old) then place + 1 else place)) }
{
    if place < out.len() {
        out[place] = byte;
        return place + 1;
    }
    place
}

// The shortest varint of a value, from a place on, as much of it as fits; and how many bytes it has.
pub fn write_varint(out: &mut [u8], place: usize, value: u64) -> usize
    ensures { Put out.old place (varint_of value) out.new result }
{
    let mut next = place;
    let mut rest = value;
    let mut left: usize = 9;
    while 0 < left {
        if rest < 128 {
            put(out, next, rest as u8);
            return 10 - left;
        }
        next = put(out, next, (128 + rest % 128) as u8);
        rest /= 128;
        left -= 1;
    }
    put(out, next, rest as u8);
    10
}

// The bits of a at the even places, of b at the odd ones, the highest first.
pub fn interleave(a: u64, b: u64) -> u64
    ensures { result ≡ interleaved 32 a b }
{
    let mut out: u64 = 0;
    for place in (0..32u32).rev() {
        out = (a >> place) % 2 + (b >> place) % 2 * 2 + out * 4;
    }
    out
}

// The signed form of a difference: twice the size, odd only for negatives.
pub fn form_of(from: i32, to: i32) -> u64
    ensures { result ≡ signed_form (to -ℤ from) }
{
    let by = (to as i64) - (from as i64);
    if by < 0 {
        return ((0 - by) as u64) * 2 + 1;
    }
    (by as u64) * 2
}
