// What is asked of the library, and what it answers.
ghost use Rattle.std.specs.Prelude.{◌≡◌, length};
ghost use Rattle.zones.specs.Lent.{replied};
ghost use Rattle.zone.specs.Answer.{answer_of};

use header::zero::zero_both;
use line::bytes::word_at;
use numbers::fault::Fault;
use numbers::float::bits::of_bits;
use numbers::refusal::Refusal;
use table::location::Location;
use zones::lookup::{Zones, lookup};

// Latitude and longitude (f32 bits, low byte first), then the file.
// Stays parameters: a file and the two lists that a lookup fills, as the lookup itself takes them.
pub fn answer(input: &[u8], hits: &mut [u32], text: &mut [u8]) -> Result<Zones, Refusal>
    ensures { replied result hits.new text.new
        ≡ answer_of input.now (length hits.old) (length text.old) }
{
    if 65536 < input.len() {
        zero_both(hits, text);
        return Err(Fault::FileTooLarge.alone());
    }
    if input.len() < 8 {
        zero_both(hits, text);
        return Err(Fault::FileTooShort.alone());
    }
    let lat = of_bits(word_at(input, 0));
    let lon = of_bits(word_at(input, 4));
    lookup(&input[8..], Location { lat, lon }, true, hits, text)
}
