// The search of rows that are given as words, with marks along their borders (document 04). It stands apart from listed.rt, so that a program without marks does
// not carry it.
// Stays, point 7: `asked` is the caller's question; a const parameter would compile each loop twice (docs/DECISIONS.md: 8 kB).
ghost use Rattle.std.specs.Prelude.{◌≡◌, length};
ghost use Rattle.table.specs.{Find.{finding}, MarkedRows.{encoding_in, mark_for, judge_numbered, found_marked}};
ghost use Rattle.verdict.specs.Verdict.{told};

use crate::find::Matches;
use crate::listed::{Judging, Unmarked, find_by, wide};
use crate::location::Location;
use crate::search::version_of;
use border::place::Point;
use border::reader::Encoding;
use header::header::Head;
use marks::judge::judge_by;
use numbers::fault::Fault;
use numbers::refusal::Refusal;
use verdict::judge::Judged;

pub fn encoding_of(head: Head) -> Encoding
    ensures { result ≡ encoding_in head }
{
    let preamble = head.preamble;
    let sections = head.sections;
    Encoding {
        version: version_of(preamble.version),
        data: sections.data,
        strict: head.strict,
    }
}

// Where the marks of record k stand, 0 for none.
fn mark_for(marks: &[u32], k: usize) -> usize
    ensures { result ≡ mark_for marks.now k }
{
    if k < marks.len() {
        let word = wide(marks[k]);
        return word;
    }
    0
}

// By the marks of the record, if it has any.
#[derive(Clone, Copy)]
pub(crate) struct Marked<'a> {
    unmarked: Unmarked<'a>,
    marks: &'a [u32],
}

impl<'a> Judging for Marked<'a> {
    ghost border = { λ _ k. k };

    ghost judged_by = { λ self fix records. judge_numbered self.unmarked.file.now self.unmarked.head fix self.unmarked.asked records self.marks.now };

    fn judge(&self, fix: Point, k: usize, polygon: u32, least: u64) -> Result<Judged, Fault> {
        let unmarked = self.unmarked;
        let at = mark_for(self.marks, k);
        if at == 0 {
            return unmarked.judge(fix, k, polygon, least);
        }
        let encoding = encoding_of(unmarked.head);
        judge_by(
            unmarked.file,
            encoding,
            self.marks,
            at,
            fix.lat,
            fix.lon,
            unmarked.asked,
            least,
        )
    }
}

// `find_listed` with marks: record k's word in `marks` says where in them the marks of its border stand, 0 for none. Any header and any words are taken; 36 also
// where marks end too soon.
// Stays a sentinel: the words are lent, and document 04 gives their 0 its meaning.
pub fn find_marked(
    file: &[u8],
    head: Head,
    location: Location,
    asked: bool,
    records: &[u32],
    numbers: &[u32],
    marks: &[u32],
    hits: &mut [u32],
) -> Result<Matches, Refusal>
    ensures { finding result hits.new
        ≡ found_marked file.now head location asked records.now numbers.now marks.now (length hits.old) }
{
    let unmarked = Unmarked { file, head, asked };
    let marked = Marked { unmarked, marks };
    find_by(&marked, head, location, records, numbers, hits)
}
