// Where the parts of an atlas stand that a lookup reads.
ghost use Rattle.std.specs.Prelude.{◌≡◌, ◌≤◌, length};
ghost use Rattle.index.specs.Index.{records_at};
ghost use Rattle.atlas.specs.Looked.{is_whole, parts_of};

use header::header::Head;
use index::build::RECORDS_AT;
use index::place::list_of;
use index::tied::wide;
use numbers::fault::Fault;
use numbers::refusal::Refusal;
use table::location::Location;

// Where the records end, the list of the location's tile, and where entries and marks begin.
#[derive(Clone, Copy)]
pub struct Parts {
    pub behind: usize,
    pub from: usize,
    pub end: usize,
    pub beside: usize,
}

// Whether the words are as many as their length says.
fn is_whole(words: &[u32]) -> bool
    requires { records_at ≤ length words.now }
    ensures { result ≡ is_whole words.now }
{
    let end = wide(words[2051]);
    end < words.len() && wide(words[end]) <= words.len()
}

// Of words whose head goes with a file of this length.
pub(crate) fn parts_of(
    length: usize,
    head: Head,
    words: &[u32],
    location: Location,
) -> Result<Parts, Refusal>
    ensures { result ≡ parts_of length head words.now location }
{
    let place = list_of(length, head, words, location)?;
    if !is_whole(words) {
        return Err(Fault::OtherIndex.alone());
    }
    let rows = wide(words[2]);
    let last = wide(words[2051]);
    Ok(Parts {
        behind: RECORDS_AT + 7 * rows,
        from: place.from,
        end: place.end,
        beside: last + 1,
    })
}
