// Signed numbers, and points: a latitude and a longitude whose bits take turns.
ghost use Rattle.std.specs.Prelude.{◌≡◌, ◌^◌, ◌<◌};
ghost use mir.{Syntax.{w32}, Val.{of_z}};
ghost use Rattle.numbers.specs.Point.{read_i32, signed_of, even_bits, both_bits, point_of};

#[derive(Clone, Copy, PartialEq, Eq)]
pub struct RawPoint {
    pub lat: i32,
    pub lon: i32,
}

// The i32 that has these bits.
fn with_bits(bits: u32) -> i32
    ensures { result ≡ read_i32 bits }
{
    bits.cast_signed()
}

// The bits of an i32, the other way.
pub fn bits_of(n: i32) -> u32
    ensures { result ≡ of_z w32 n }
{
    n.cast_unsigned()
}

// Half the value, negated if odd, kept modulo 2^32.
pub fn signed(value: u64) -> i32
    ensures { result ≡ signed_of value }
{
    let half = (value / 2 % 0x1_0000_0000) as u32;
    if value % 2 == 0 {
        with_bits(half)
    } else {
        with_bits(std::num::wrapping_sub_u32(0, half))
    }
}

// The bits at even places, side by side: each step joins neighbouring groups, of 1, 2, 4, 8 and 16 bits.
pub fn unshuffle(w: u64) -> u32
    ensures { result ≡ even_bits 32 w }
{
    let ones = w & 0x5555_5555_5555_5555;
    let twos = (ones | ones >> 1) & 0x3333_3333_3333_3333;
    let fours = (twos | twos >> 2) & 0x0f0f_0f0f_0f0f_0f0f;
    let bytes = (fours | fours >> 4) & 0x00ff_00ff_00ff_00ff;
    let halves = (bytes | bytes >> 8) & 0x0000_ffff_0000_ffff;
    let whole = (halves | halves >> 16) & 0xffff_ffff;
    whole as u32
}

// A number of at most 32 bits taken apart: its even bits in the low half of the answer, its odd bits in the high half.
// Stays a function: no conversion; it sorts bits.
fn apart(w: u64) -> u64
    requires { w < 2 ^ 32 }
    ensures { result ≡ both_bits w }
{
    let both = unshuffle(w / 2 * 0x1_0000_0000 + w) as u64;
    both % 0x1_0000 + both / 0x1_0000 * 0x1_0000_0000
}

// Any number taken apart, 32 bits at a time. Hardly a move has more; the loop keeps the rest short enough for this to be compiled in line.
// Stays a loop: each turn divides the rest, until nothing is left.
fn apart_any(w: u64) -> u64
    ensures { result ≡ both_bits w }
{
    if w < 0x1_0000_0000 {
        return apart(w);
    }
    let mut both = 0;
    let mut rest = w;
    let mut place: u64 = 0;
    loop {
        both += apart(rest % 0x1_0000_0000) << place;
        rest /= 0x1_0000_0000;
        if rest == 0 {
            return both;
        }
        place += 16;
    }
}

// Even bits give the latitude, odd bits the longitude.
pub fn decode_point(point: u64) -> RawPoint
    ensures { result ≡ point_of point }
{
    let both = apart_any(point);
    RawPoint {
        lat: signed(both % 0x1_0000_0000),
        lon: signed(both / 0x1_0000_0000),
    }
}
