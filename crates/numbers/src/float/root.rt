// Rust's `sqrt` on f32, in whole numbers: x is digits * 2^place of the smallest f32, 2^-149, so its
// root is that of digits * 2^(place + 149), in the same units.
ghost use mathlib.Core.{Path.{◌≡◌}, Bool.{true}};
ghost use Rattle.std.specs.Prelude.{◌+◌, ◌*◌, ◌^◌, ◌<◌, ◌≤◌};
ghost use lib.{Dec.{T}, Ieee.{size, Positive.{positive}}};
ghost use Rattle.numbers.specs.Float.Root.{units_of, nearest_root, root};

use crate::float::nearest::{assembled, digits, power_of_two};

#[derive(Clone, Copy)]
struct Parts {
    digits: u64,
    size: u64,
    place: u64,
}

// x as its digits, with their number, times 2^place of the smallest f32. The exponent's fields 0 and 1 have the same place.
fn taken_apart(x: f32) -> Parts
    requires { T (positive x) }
    ensures whole { result.digits * 2 ^ result.place ≡ units_of x }
    ensures small { (0 < result.digits) × (result.digits < 16777216) × (result.place < 254) × (result.size ≡ size result.digits) }
{
    let bits = f32::to_bits(x) as u64;
    if bits < 8388608 {
        return Parts {
            digits: bits,
            size: digits(bits),
            place: 0,
        };
    }
    Parts {
        digits: bits % 8388608 + 8388608,
        size: 24,
        place: bits / 8388608 - 1,
    }
}

// A guess at the root of the leading 32 digits of n, from two lines near the roots of 31 and of 32 digits.
// Stays a function: no conversion, but a guess.
fn first_guess(top: u32) -> u32
    ensures { (16384 ≤ result) × (result < 131072) }
{
    if top < 0x8000_0000 {
        return top / 79000 + 19500;
    }
    top / 111000 + 27400
}

// A guess at the whole number nearest to √n, which for an n of 47 or 48 digits is nearly always right, else one too large: two steps of Newton's,
// of which the first is worked out with few digits. Whatever it gives is tried.
fn guessed_root(n: u64) -> u64
    requires { n < 281474976710656 }
    ensures { result < 2147483648 }
{
    let top = (n / 65536) as u32;
    let first = first_guess(top);
    let near = (first + top / first) as u64 * 128;
    (near + n / near + 1) / 2
}

// Whether r is the whole number nearest to √n.
fn is_nearest(n: u64, r: u64) -> bool
    requires { (n < 281474976710656) × (r < 2147483648) }
    ensures { result ≡ true → (r * r < n + r) × (n ≤ r * r + r) }
{
    let square = r * r;
    if n + r <= square {
        return false;
    }
    n <= square + r
}

fn nearest_root(n: u64) -> u64
    requires { (0 < n) × (n < 281474976710656) }
    ensures { result ≡ nearest_root n }
{
    let guess = guessed_root(n);
    if is_nearest(n, guess) {
        return guess;
    }
    let below = guess.saturating_sub(1);
    if is_nearest(n, below) {
        return below;
    }
    let low = n.isqrt();
    if low * low + low < n { low + 1 } else { low }
}

// The digits are scaled by an even power of two to 47 or 48 of them, whose root has 24.
fn positive_root(x: f32) -> f32
    requires { T (positive x) }
    ensures { result ≡ root x }
{
    let p = taken_apart(x);
    let place = p.place;
    let significand = p.digits;
    let half = (p.size + place + 102) / 2;
    let square = significand * power_of_two(place + 149 - 2 * half);
    assembled(nearest_root(square), half)
}

pub fn sqrt(x: f32) -> f32
    ensures { result ≡ root x }
{
    if x > 0.0 {
        if x < 1.0 / 0.0 {
            return positive_root(x);
        }
        return x;
    }
    if x == 0.0 {
        return x;
    }
    0.0 / 0.0
}
