// Lookup through an index: among the rows in the list of the fix's tile.
// Stays, point 7: `asked` is the caller's question; a const parameter would compile each loop twice (8 kB more, docs/DECISIONS.md).
// Stays, point 5: any header is taken with any file, so a struct of `file, head` would hold no fact; C lends `hits` and `text` apart.
ghost use Rattle.std.specs.Prelude.{◌≡◌, length};
ghost use Rattle.index.specs.Through.{zones_through, looked_through, looked_indexed};
ghost use Rattle.zones.specs.Lent.{replied, replied_of};

use crate::build::RECORDS_AT;
use crate::place::list_of;
use crate::tied::{tied_with, wide};
use header::header::{Head, head_of};
use header::zero::zero_both;
use numbers::refusal::Refusal;
use table::location::Location;
use zones::lookup::{Zones, lookup_listed};

// In a file whose header was read; any header is taken.
fn through_in(
    file: &[u8],
    head: Head,
    index: &[u32],
    location: Location,
    asked: bool,
    hits: &mut [u32],
    text: &mut [u8],
) -> Result<Zones, Refusal>
    ensures { replied result hits.new text.new
        ≡ replied_of (length hits.old) (length text.old)
        (zones_through file.now head index.now location asked (length hits.old) (length text.old)) }
{
    let place = match list_of(file.len(), head, index, location) {
        Ok(place) => place,
        Err(why) => {
            zero_both(hits, text);
            return Err(why);
        }
    };
    let from = place.from;
    let end = place.end;
    let behind = RECORDS_AT + 7 * wide(index[2]);
    lookup_listed(
        file,
        head,
        location,
        asked,
        &index[RECORDS_AT..behind],
        &index[from..end],
        hits,
        text,
    )
}

// Through words whose head goes with the file, which header and table are not held against: for an index that `index_tied` said yes of. Refused: opening's
// numbers, 16, 36, and what a lookup is refused with.
pub fn lookup_through(
    file: &[u8],
    index: &[u32],
    location: Location,
    asked: bool,
    hits: &mut [u32],
    text: &mut [u8],
) -> Result<Zones, Refusal>
    ensures { replied result hits.new text.new
        ≡ looked_through file.now index.now location asked (length hits.old) (length text.old) }
{
    let head = match head_of(file) {
        Ok(head) => head,
        Err(why) => {
            zero_both(hits, text);
            return Err(why);
        }
    };
    through_in(file, head, index, location, asked, hits, text)
}

// After a comparison of header and table: `index_tied`, then `lookup_through`.
pub fn lookup_indexed(
    file: &[u8],
    index: &[u32],
    location: Location,
    asked: bool,
    hits: &mut [u32],
    text: &mut [u8],
) -> Result<Zones, Refusal>
    ensures { replied result hits.new text.new
        ≡ looked_indexed file.now index.now location asked (length hits.old) (length text.old) }
{
    let head = match head_of(file) {
        Ok(head) => head,
        Err(why) => {
            zero_both(hits, text);
            return Err(why);
        }
    };
    if let Err(why) = tied_with(file, head, index) {
        zero_both(hits, text);
        return Err(why);
    }
    through_in(file, head, index, location, asked, hits, text)
}
