// Where a value lies among a builder's texts.
ghost use Rattle.std.specs.Prelude.{◌≡◌, ◌+◌, ◌*◌, ◌^◌, ◌≤◌, ◌<◌, length};
ghost use Rattle.builder.specs.{File.{is_text}, Yards.{sum_of}};

use builder::texts::are_texts;

// How many bytes the texts before it have. Their lengths may be anything: a list that no call has filled can claim more than there is.
pub(crate) fn place_behind(lengths: &[u32]) -> usize
    requires { length lengths.now < 2 ^ 24 }
    ensures { (result ≡ sum_of lengths.now) × (result < 2 ^ 60) }
{
    let mut sum = 0;
    for length in lengths {
        sum += *length as usize;
    }
    sum
}

// A value is at most 255 bytes long, and UTF-8.
pub(crate) fn is_value(text: &[u8]) -> bool
    ensures { result ≡ is_text text.now }
{
    let size = text.len();
    if 255 < size {
        return false;
    }
    let sizes = [size as u32; 1];
    are_texts(&sizes, text)
}
