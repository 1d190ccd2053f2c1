// Simple lookup through an atlas or none: what follows the search is that of the plain one.
// Stays, point 5: any header is taken with any file, so a struct of `file, head` would hold no fact; C lends `hits` and `text` apart.
ghost use Rattle.std.specs.Prelude.{◌≡◌, length};
ghost use Rattle.atlas.specs.Beside.{described_beside, simply_beside};
ghost use Rattle.numbers.specs.Lists.{zeros};
ghost use Rattle.table.specs.inner.Agreeing.{Agrees};
ghost use Rattle.zones.specs.{Lent.{Filled, replied, replied_of}};

use crate::search::find_beside;
use header::field::zero;
use header::header::{Head, head_of};
use header::zero::zero_both;
use numbers::refusal::Refusal;
use table::location::Location;
use zones::simple::{Described, tell};

// In a text that is zero.
fn look(
    file: &[u8],
    head: Head,
    words: &[u32],
    location: Location,
    hits: &mut [u32],
    text: &mut [u8],
) -> Result<Described, Refusal>
    requires { text.old ≡ zeros (length text.old) }
    ensures { Agrees (Filled (length hits.old) (length text.old) hits.new text.new)
        (described_beside file.now head words.now location (length hits.old) (length text.old)) result }
{
    let found = find_beside(file, head, words, location, false, hits)?;
    tell(file, head, found, hits, text)
}

// In a file whose header was read; any header is taken.
fn simple_in(
    file: &[u8],
    head: Head,
    words: &[u32],
    location: Location,
    hits: &mut [u32],
    text: &mut [u8],
) -> Result<Described, Refusal>
    ensures { replied result hits.new text.new
        ≡ replied_of (length hits.old) (length text.old)
        (described_beside file.now head words.now location (length hits.old) (length text.old)) }
{
    zero(text);
    let described = look(file, head, words, location, hits, text);
    if described.is_err() {
        zero_both(hits, text);
        return described;
    }
    described
}

// The plain simple lookup, where there are no words or `is_atlas` says 0 of them. Any words are taken: of them only what keeps the lookup inside is asked.
pub fn simple_atlas(
    file: &[u8],
    words: &[u32],
    location: Location,
    hits: &mut [u32],
    text: &mut [u8],
) -> Result<Described, Refusal>
    ensures { replied result hits.new text.new
        ≡ simply_beside file.now words.now location (length hits.old) (length text.old) }
{
    let head = match head_of(file) {
        Ok(head) => head,
        Err(why) => {
            zero_both(hits, text);
            return Err(why);
        }
    };
    simple_in(file, head, words, location, hits, text)
}
