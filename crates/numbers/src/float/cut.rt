// Rust's `as` from f32 to a signed integer: cut toward zero, brought to the nearer end of the range, and 0 for a NaN.
// Stays, point 2: `to_i64` and `to_i32` differ in two types and four constants; a trait that has these is no plainer.
ghost use mathlib.Core.{Path.{◌≡◌}, Bool.{false}};
ghost use lib.{Dec.{T}, IntN.{pos}, Ieee.{fin, lt, le, to_unsigned}};
ghost use Rattle.numbers.specs.Float.{cut32, cut64};

// The whole part of an x from 1 up to 2^63. Its 24 digits stand at the top of a word, and the
// exponent's field says how many places of the word lie behind the point.
fn whole_part(x: f32) -> u64
    requires { T (le (fin false 1 (pos 0)) x) × T (lt x (fin false 1 (pos 63))) }
    ensures { result ≡ to_unsigned 64 x }
{
    let bits = f32::to_bits(x) as u64;
    let digits = bits % 8388608 + 8388608;
    (digits << 40) >> (190 - bits / 8388608)
}

pub fn to_i64(x: f32) -> i64
    ensures { result ≡ cut64 x }
{
    if x >= 1.0 {
        if x < 9223372036854775808.0 {
            return whole_part(x) as i64;
        }
        return 9223372036854775807;
    }
    let size = -x;
    if size >= 1.0 {
        if size < 9223372036854775808.0 {
            return 0 - (whole_part(size) as i64);
        }
        return -9223372036854775808;
    }
    0
}

pub fn to_i32(x: f32) -> i32
    ensures { result ≡ cut32 x }
{
    if x >= 1.0 {
        if x < 2147483648.0 {
            return whole_part(x) as i32;
        }
        return 2147483647;
    }
    let size = -x;
    if size >= 1.0 {
        if size < 2147483648.0 {
            return 0 - (whole_part(size) as i32);
        }
        return -2147483648;
    }
    0
}
