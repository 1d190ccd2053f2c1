// Lookup through an atlas: among the rows in the list of the fix's tile, by the marks along their borders; and through an atlas or none.
// Stays, point 7: `asked` is the caller's question; a const parameter would compile each loop twice (8 kB more, docs/DECISIONS.md).
// Stays, point 5: any header is taken with any file, so a struct of `file, head` would hold no fact; C lends `hits` and `text` apart.
ghost use Rattle.std.specs.Prelude.{◌≡◌, length};
ghost use Rattle.atlas.specs.{Beside.{zones_beside}, Looked.{zones_atlas, looked_atlas}};
ghost use Rattle.zones.specs.Lent.{replied, replied_of};

use crate::parts::parts_of;
use header::header::{Head, head_of};
use header::zero::zero_both;
use index::build::RECORDS_AT;
use numbers::refusal::Refusal;
use table::location::Location;
use zones::lookup::{Zones, lookup_in};
use zones::marked::lookup_marked;

// In a file whose header was read; any header is taken.
fn atlas_in(
    file: &[u8],
    head: Head,
    words: &[u32],
    location: Location,
    asked: bool,
    hits: &mut [u32],
    text: &mut [u8],
) -> Result<Zones, Refusal>
    ensures { replied result hits.new text.new
        ≡ replied_of (length hits.old) (length text.old)
        (zones_atlas file.now head words.now location asked (length hits.old) (length text.old)) }
{
    let parts = match parts_of(file.len(), head, words, location) {
        Ok(parts) => parts,
        Err(why) => {
            zero_both(hits, text);
            return Err(why);
        }
    };
    lookup_marked(
        file,
        head,
        location,
        asked,
        &words[RECORDS_AT..parts.behind],
        &words[parts.from..parts.end],
        &words[parts.beside..],
        hits,
        text,
    )
}

// In a file whose header was read, through an atlas, or without one where there are no words; any header and any words are taken.
pub fn lookup_beside(
    file: &[u8],
    head: Head,
    words: &[u32],
    location: Location,
    asked: bool,
    hits: &mut [u32],
    text: &mut [u8],
) -> Result<Zones, Refusal>
    ensures { replied result hits.new text.new
        ≡ replied_of (length hits.old) (length text.old)
        (zones_beside file.now head words.now location asked (length hits.old) (length text.old)) }
{
    if words.len() == 0 {
        return lookup_in(file, head, location, asked, hits, text);
    }
    atlas_in(file, head, words, location, asked, hits, text)
}

// The plain lookup, for words of which `is_atlas` says 0. Any words are taken: of them only what keeps the lookup inside is asked. Refused: opening's numbers, 16,
// 36, and what a lookup is refused with.
pub fn lookup_atlas(
    file: &[u8],
    words: &[u32],
    location: Location,
    asked: bool,
    hits: &mut [u32],
    text: &mut [u8],
) -> Result<Zones, Refusal>
    ensures { replied result hits.new text.new
        ≡ looked_atlas file.now words.now location asked (length hits.old) (length text.old) }
{
    let head = match head_of(file) {
        Ok(head) => head,
        Err(why) => {
            zero_both(hits, text);
            return Err(why);
        }
    };
    atlas_in(file, head, words, location, asked, hits, text)
}
