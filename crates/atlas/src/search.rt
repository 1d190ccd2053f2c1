// The matches through an atlas, and through an atlas or none.
// Stays, point 7: `asked` is the caller's question; a const parameter would compile each loop twice (8 kB more, docs/DECISIONS.md).
// Stays, point 5: any header is taken with any file, so a struct of `file, head` would hold no fact.
ghost use Rattle.std.specs.Prelude.{◌/◌, length};
ghost use Rattle.atlas.specs.{Beside.{matched_beside}, Looked.{matched_atlas}};
ghost use Rattle.table.specs.{Find.{Matching}, Hits.{width}, inner.Agreeing.{Agrees}};

use crate::parts::parts_of;
use header::header::Head;
use index::build::RECORDS_AT;
use numbers::refusal::Refusal;
use table::find::{Matches, find_in};
use table::location::Location;
use table::marked::find_marked;

// In a file whose header was read; any header is taken.
fn find_atlas(
    file: &[u8],
    head: Head,
    words: &[u32],
    location: Location,
    asked: bool,
    hits: &mut [u32],
) -> Result<Matches, Refusal>
    ensures { Agrees (Matching (length hits.old) hits.new)
        (matched_atlas file.now head words.now location asked (length hits.old / width)) result }
{
    let parts = parts_of(file.len(), head, words, location)?;
    find_marked(
        file,
        head,
        location,
        asked,
        &words[RECORDS_AT..parts.behind],
        &words[parts.from..parts.end],
        &words[parts.beside..],
        hits,
    )
}

// The same without an atlas where there are no words. A refusal says nothing of the lent words.
pub(crate) fn find_beside(
    file: &[u8],
    head: Head,
    words: &[u32],
    location: Location,
    asked: bool,
    hits: &mut [u32],
) -> Result<Matches, Refusal>
    ensures { Agrees (Matching (length hits.old) hits.new)
        (matched_beside file.now head words.now location asked (length hits.old / width)) result }
{
    if words.len() == 0 {
        return find_in(file, head, location, asked, hits);
    }
    find_atlas(file, head, words, location, asked, hits)
}
