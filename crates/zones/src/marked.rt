// Lookup among rows that are given as words with marks along their borders (document 04).
// Stays, point 7: `asked` is the caller's question; a const parameter would compile each loop twice (docs/DECISIONS.md: 8 kB).
ghost use Rattle.std.specs.Prelude.{◌≡◌, length};
ghost use Rattle.zones.specs.{Lent.{replied}, Marked.{looked_marked}};

use crate::lookup::{Zones, answer};
use header::header::Head;
use numbers::refusal::Refusal;
use table::location::Location;
use table::marked::find_marked;

// `lookup_listed` with marks, as `find_marked` has them. Any header and any words are taken.
// Stays apart from `lookup_listed`: two lines, in a file that a program without marks does not carry.
pub fn lookup_marked(
    file: &[u8],
    head: Head,
    location: Location,
    asked: bool,
    records: &[u32],
    numbers: &[u32],
    marks: &[u32],
    hits: &mut [u32],
    text: &mut [u8],
) -> Result<Zones, Refusal>
    ensures { replied result hits.new text.new
        ≡ looked_marked file.now head location asked records.now numbers.now marks.now (length hits.old) (length text.old) }
{
    let found = find_marked(file, head, location, asked, records, numbers, marks, hits);
    answer(file, head, asked, found, hits, text)
}
