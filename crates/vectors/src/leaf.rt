// The recorded answers of numbers' functions: one check for each kind of line.
// Stays, point 2: each check is a line or two, and calls another function of numbers.
// Stays, point 6: an array of the longest line's bytes; a Vec could fail.
use crate::text::{bytes, decimal, hex, is_bits, is_decimal, is_negative, is_signed, word};
use numbers::float::bits::{bits_of, of_bits};
use numbers::float::nearest::{of_i32, of_u64};
use numbers::refusal::plain;
use numbers::varint::{Number, Stop, is_complete, read_backward, read_forward};

// The number that a reading is refused with, 0 for a failure.
pub(crate) fn number_of(stop: Stop) -> u64 {
    u64::from(stop.or(plain(0)).number)
}

// `KIND PLACE FILE > VALUE NEXT`, `.. > fails` or `.. > refused 12 0`.
fn reads_as(line: &[u8], answer: Result<Number, Stop>) -> bool {
    let told = word(line, 4);
    match answer {
        Ok(number) => {
            is_decimal(told, number.value) && is_decimal(word(line, 5), number.place as u64)
        }
        Err(Stop::Failed) => told == b"fails".as_slice(),
        Err(stop) => told == b"refused".as_slice() && is_decimal(word(line, 5), number_of(stop)),
    }
}

// The line's file, read from its place by one of the two readers.
fn reads<R: Fn(&[u8], usize) -> Result<Number, Stop>>(line: &[u8], read: R) -> bool
    requires { R.IsAlwaysCallable read }
{
    let mut space = [0u8; 32];
    let size = bytes(word(line, 2), &mut space);
    let place = decimal(word(line, 1)) as usize;
    reads_as(line, read(&space[..size], place))
}

pub fn forward(line: &[u8]) -> bool {
    reads(line, read_forward)
}

pub fn backward(line: &[u8]) -> bool {
    reads(line, read_backward)
}

// Whether the file holds all of a number is told behind its place.
fn completes(line: &[u8], file: &[u8], answer: Result<Number, Stop>) -> bool {
    match answer {
        Ok(number) => is_decimal(word(line, 6), u64::from(is_complete(file, number))),
        Err(_) => true,
    }
}

// `numeral PLACE FILE > VALUE NEXT COMPLETE`.
pub fn numeral(line: &[u8]) -> bool {
    let mut space = [0u8; 32];
    let size = bytes(word(line, 2), &mut space);
    let place = decimal(word(line, 1)) as usize;
    let answer = read_forward(&space[..size], place);
    reads_as(line, answer) && completes(line, &space[..size], answer)
}

pub fn is_integer(line: &[u8], k: usize, value: i32) -> bool {
    let wide = i64::from(value);
    is_signed(word(line, k), wide)
}

pub fn signed(line: &[u8]) -> bool {
    is_integer(line, 4, numbers::point::signed(decimal(word(line, 1))))
}

pub fn point(line: &[u8]) -> bool {
    let point = numbers::point::decode_point(decimal(word(line, 1)));
    is_integer(line, 4, point.lat) && is_integer(line, 5, point.lon)
}

// The i32 of a word: its signed form is twice its size, and one more below zero.
pub fn small_integer(word: &[u8]) -> i32 {
    let twice = decimal(word) % 0x1_0000_0000 * 2;
    if is_negative(word) {
        return numbers::point::signed(twice + 1);
    }
    numbers::point::signed(twice)
}

// Whether word k is a float's bits.
fn is_float(line: &[u8], k: usize, value: f32) -> bool {
    is_bits(word(line, k), bits_of(value))
}

pub fn i32_to_f32(line: &[u8]) -> bool {
    is_float(line, 4, of_i32(small_integer(word(line, 1))))
}

pub fn u64_to_f32(line: &[u8]) -> bool {
    is_float(line, 4, of_u64(decimal(word(line, 1))))
}

pub fn f32_to_i32(line: &[u8]) -> bool {
    let value = of_bits(hex(word(line, 1)));
    is_integer(line, 4, numbers::float::cut::to_i32(value))
}

pub fn f32_to_i64(line: &[u8]) -> bool {
    let value = of_bits(hex(word(line, 1)));
    is_signed(word(line, 4), numbers::float::cut::to_i64(value))
}

pub fn sqrt(line: &[u8]) -> bool {
    let value = of_bits(hex(word(line, 1)));
    is_float(line, 4, numbers::float::root::sqrt(value))
}

fn precision_of(word: &[u8]) -> u8 {
    (decimal(word) % 256) as u8
}

// `fixed COORDINATE SCALE PRECISION > FIXED`: both floats by their bits.
pub fn fixed(line: &[u8]) -> bool {
    let coordinate = of_bits(hex(word(line, 1)));
    let scale = of_bits(hex(word(line, 2)));
    let precision = precision_of(word(line, 3));
    is_integer(
        line,
        5,
        numbers::float::fixed::to_fixed(coordinate, scale, precision),
    )
}

// `safezone SQUARED PRECISION - > BITS`: the root of a squared distance, in degrees.
pub fn safezone(line: &[u8]) -> bool {
    let squared = of_u64(decimal(word(line, 1)));
    let factor = numbers::float::fixed::factor(precision_of(word(line, 2)));
    let degrees = numbers::float::root::sqrt(squared) * 90.0 / factor;
    is_float(line, 5, degrees)
}
