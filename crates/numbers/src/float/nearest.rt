// Rust's `as` from an integer to f32: the nearest float, and of two that are as near the one whose last digit is even.
ghost use mathlib.Core.{Path.{◌≡◌}, Bool.{false}};
ghost use Rattle.std.specs.Prelude.{◌/◌, ◌^◌, ◌<◌, ◌≤◌};
ghost use lib.{IntN.{pos, nat_abs}, Ieee.{binary32, units, size, Nearest.{closest}}};
ghost use Rattle.numbers.specs.Float.{to_f32};

// How many binary digits n has.
// Stays a function: no conversion, but a count.
pub(crate) fn digits(n: u64) -> u64
    ensures { result ≡ size n }
{
    64 - (u64::leading_zeros(n) as u64)
}

pub(crate) fn power_of_two(k: u64) -> u64
    requires { k < 64 }
    ensures { result ≡ 2 ^ k }
{
    1 << k
}

// 24 digits, or 2^24 where the rounding carried, times 2^place of the smallest f32. It is written as
// a bit pattern, in which the leading digit and a carry add to the exponent's field by themselves.
pub(crate) fn assembled(kept: u64, place: u64) -> f32
    requires { (8388608 ≤ kept) × (kept ≤ 16777216) × (place ≤ 252) }
    ensures { result ≡ units binary32 false kept place }
{
    f32::from_bits((place * 8388608 + kept) as u32)
}

// n / 2^k to the nearest whole number, a tie to the even one.
fn nearest_shifted(n: u64, k: u64) -> u64
    requires { (k ≤ 40) × (n / 2 ^ k < 16777216) }
    ensures { result ≡ closest n (2 ^ k) }
{
    let unit = power_of_two(k);
    let kept = n >> k;
    let twice = (n - (kept << k)) * 2;
    if twice < unit {
        return kept;
    }
    if unit < twice {
        return kept + 1;
    }
    kept + kept % 2
}

// Up to 2^24 every whole number is a float. A longer one keeps its 24 leading digits, rounded.
// Stays by hand: the kit's own conversion would be compiled into every lookup (docs/DECISIONS.md).
pub fn of_u64(n: u64) -> f32
    ensures { result ≡ to_f32 (pos n) }
{
    if n <= 16777216 {
        return n as f32;
    }
    let dropped = digits(n) - 24;
    assembled(nearest_shifted(n, dropped), dropped + 149)
}

// The size of n: one more than -1 less it, so that the least i32 has one.
fn magnitude(n: i32) -> u64
    ensures { result ≡ nat_abs n }
{
    if n < 0 {
        return (-1 - n) as u64 + 1;
    }
    n as u64
}

// The quick path is the one that coordinates take at a precision of up to 25.
pub fn of_i32(n: i32) -> f32
    ensures { result ≡ to_f32 n }
{
    if -16777216 <= n && n <= 16777216 {
        return n as f32;
    }
    // the kit's own nearest float would be compiled into every lookup
    let rounded = of_u64(magnitude(n));
    if n < 0 { -rounded } else { rounded }
}
