// A request: what is asked about, or why it is none.
ghost use Rattle.std.specs.Prelude.{◌≡◌};
ghost use Rattle.request.specs.{Request.{request_of}};

use crate::degrees::first;
use crate::plain::plain;
use crate::sentence::sentence;
use crate::text::without;
use numbers::fault::Fault;
use numbers::refusal::Refusal;

// Degrees, and seconds from 1970.
#[derive(Clone, Copy)]
pub struct Fix {
    pub lat: f32,
    pub lon: f32,
    pub instant: i64,
}

// The request that a line is, with or without its end.
pub fn read_request(text: &[u8]) -> Result<Fix, Refusal>
    ensures { result ≡ request_of text.now }
{
    let line = without(without(text, b'\n'), b'\r');
    if 255 < line.len() {
        return Err(Fault::NotRequest.at(255));
    }
    if first(line) == b'$' {
        return sentence(line);
    }
    plain(line)
}
