// A fraction of whole numbers to the nearest f32, in one rounding: 24 digits of the quotient and its remainder are worked out exactly.
ghost use Rattle.std.specs.Prelude.{◌≡◌, ◌*◌, ◌/◌, ◌≤◌, ◌<◌, false};
ghost use Prim.Native.Nat.{compare};
ghost use Rattle.std.specs.Float.{binary32};
ghost use Rattle.std.specs.Float.Ieee.{nearest, units, round};
ghost use Rattle.request.specs.Number.{nearest_to};

use numbers::float::bits::of_bits;

// A quotient moved up by one where its remainder is more than half of the divisor, and at a tie to the even one.
fn rounded(kept: u64, rest: u64, unit: u64) -> u64
    requires { (kept < 16777216) × (rest < unit) }
    ensures { result ≡ nearest kept (compare (rest * 2) unit) }
{
    let over = unit - rest;
    if rest < over {
        return kept;
    }
    if over < rest {
        return kept + 1;
    }
    kept + kept % 2
}

// 24 digits and a remainder, at a place of the smallest f32, as a bit pattern: the leading digit and a carry add to the exponent's field by themselves.
fn assembled(kept: u64, rest: u64, unit: u64, place: u64) -> f32
    requires { (8388608 ≤ kept) × (kept < 16777216) × (rest < unit) × (place ≤ 252) }
    ensures { result ≡ units binary32 false (nearest kept (compare (rest * 2) unit)) place }
{
    of_bits((place * 8388608 + rounded(kept, rest, unit)) as u32)
}

// num / den to the nearest f32, and of two that are as near the one whose last digit is even: the division goes on behind the point until
// there are 24 digits.
fn nearest_fraction(num: u64, den: u64) -> f32
    requires { (0 < num) × (0 < den) × (num / den < 16777216) }
    ensures { result ≡ round binary32 false num den }
{
    let mut kept = num / den;
    let mut rest = num % den;
    let mut place: u64 = 149;
    // Stays a loop: its step doubles.
    while kept < 8388608 {
        let over = den - rest;
        if rest < over {
            kept = kept * 2;
            rest = rest * 2;
        } else {
            kept = kept * 2 + 1;
            rest = rest - over;
        }
        place -= 1;
    }
    assembled(kept, rest, den, place)
}

// The f32 nearest to a fraction with a sign; of zero +0.
// Stays a flag: the sign is what the line says.
pub(crate) fn nearest_to(minus: bool, num: u64, den: u64) -> f32
    requires { (0 < den) × (num / den < 16777216) }
    ensures { result ≡ nearest_to (record { minus = minus; size = record { num = num; den = den } }) }
{
    if num == 0 {
        return of_bits(0);
    }
    let size = nearest_fraction(num, den);
    if minus {
        return -size;
    }
    size
}
