// Bytes into a lent buffer, one after another. Each function puts something at a place, as much of it as fits, and answers the place behind all of it.
// Stays, point 4: bytes go into a lent buffer, each by an equation (Put), which Display has not.
ghost use mathlib.Core.{List.{[], ◌∷◌}, Path.{◌≡◌}};
ghost use Rattle.std.specs.Prelude.{◌<◌, ◌+◌, ◌%◌};
ghost use Rattle.line.specs.Put.{Put, decimal, two_digits};

pub fn put(out: &mut [u8], at: usize, byte: u8) -> usize
    ensures { Put out.old at (byte ∷ []) out.new result }
{
    if at < out.len() {
        out[at] = byte;
        return at + 1;
    }
    if at < 0xffff_ffff_ffff_ffff {
        return at + 1;
    }
    at
}

// Stays apart: `Put` counts on past the buffer up to 2^64 - 1, and asks nothing of a caller; the writer's `Stored` does.
pub fn put_all(out: &mut [u8], at: usize, bytes: &[u8]) -> usize
    ensures { Put out.old at bytes.now out.new result }
{
    let mut next = at;
    for byte in bytes {
        next = put(out, next, *byte);
    }
    next
}

// The number's decimal digits.
// Stays an array: a number has at most twenty digits, and there is no heap.
pub fn put_decimal(out: &mut [u8], at: usize, n: u64) -> usize
    ensures { Put out.old at (decimal n) out.new result }
{
    let mut digits = [0u8; 20];
    let size = io::decimal(n, &mut digits);
    put_all(out, at, &digits[..size])
}

// A space and the number.
pub fn put_number(out: &mut [u8], at: usize, n: u64) -> usize
    ensures { Put out.old at (32 ∷ decimal n) out.new result }
{
    let start = put(out, at, b' ');
    put_decimal(out, start, n)
}

fn digit(n: u64) -> u8
    ensures { result ≡ 48 + n % 10 }
{
    48 + (n % 10) as u8
}

// The number's last two digits.
// Stays apart: decimal digits; where the form is the same, another program prints hexadecimal ones.
pub fn put_two(out: &mut [u8], at: usize, n: u64) -> usize
    ensures { Put out.old at (two_digits n) out.new result }
{
    let tens = digit(n / 10);
    let ones = digit(n);
    let next = put(out, at, tens);
    put(out, next, ones)
}
