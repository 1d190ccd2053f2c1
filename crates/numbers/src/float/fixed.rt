// A coordinate as a fixed-point number, as the Rust's float_to_fixed_point has it.
ghost use Rattle.std.specs.Prelude.{◌≡◌};
ghost use Rattle.numbers.specs.Float.{to_f32, one_shifted, fixed_point};

use crate::float::cut::to_i32;
use crate::float::nearest::{of_u64, power_of_two};

// Rust's `(1_i32 << (precision - 1)) as f32`.
// Stays a function: no conversion, but a precision's scale.
pub fn factor(precision: u8) -> f32
    ensures { result ≡ to_f32 (one_shifted precision) }
{
    let place = (precision as u64 + 31) % 32;
    let size = of_u64(power_of_two(place));
    if place == 31 { -size } else { size }
}

pub fn to_fixed(input: f32, scale: f32, precision: u8) -> i32
    ensures { result ≡ fixed_point input scale precision }
{
    to_i32(input / scale * factor(precision))
}
