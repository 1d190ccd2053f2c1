// What the calls say of a length, or of how many words are used.
ghost use Rattle.std.specs.Prelude.{◌≡◌};
ghost use Rattle.numbers.specs.Spoken.{said_of};
ghost use Rattle.office.specs.Written.{length_value};

use numbers::refusal::Refusal;
use numbers::said::{Said, say_refused};

pub(crate) fn say_length(length: Result<usize, Refusal>) -> Said
    ensures { result ≡ said_of length_value length }
{
    match length {
        Ok(length) => Said {
            number: 0,
            words: [length as u64, 0, 0, 0, 0],
        },
        Err(why) => say_refused(why),
    }
}
