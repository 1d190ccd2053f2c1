// The instant at the front of the input.
ghost use Rattle.std.specs.Prelude.{◌≡◌, ◌≤◌, length};
ghost use Rattle.hour.specs.Hour.{instant_of};

use line::bytes::word_at;

// Eight bytes, low byte first.
pub fn instant_of(input: &[u8]) -> i64
    requires { 8 ≤ length input.now }
    ensures { result ≡ instant_of input.now }
{
    let low = u64::from(word_at(input, 0));
    let high = u64::from(word_at(input, 4));
    (low + 0x1_0000_0000 * high).cast_signed()
}
