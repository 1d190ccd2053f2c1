// The fields of each match go out in file order, each into what remains of the lent text.
ghost use mathlib.Core.{Path.{◌≡◌}, List.{[]}};
ghost use Rattle.std.specs.Prelude.{◌/◌, ◌≤◌, length, take};
ghost use Rattle.numbers.specs.Lists.{zeros, padded};
ghost use Rattle.table.specs.{Hits.{width, slots}, inner.Agreeing.{Agrees}};
ghost use Rattle.zones.specs.Fields.{fields_place, fields_from, fields_of, Wrote};

use header::field::write_field;
use header::header::Head;
use numbers::refusal::Refusal;
use std::num::wrapping_add_u32;
use table::hits::hit_at;

pub(crate) fn fields_place(head: Head, id: u32) -> usize
    ensures { result ≡ fields_place head id }
{
    let sections = head.sections;
    wrapping_add_u32(sections.metadata, id) as usize
}

// The fields of one match, from a place of the text on: how much of the text is used then.
fn write_match(
    text: &mut [u8],
    from: usize,
    file: &[u8],
    head: Head,
    start: usize,
) -> Result<usize, Refusal>
    requires { (from ≤ length text.old) × (text.old ≡ padded (length text.old) (take from text.old)) }
    ensures { Agrees (Wrote (length text.old) text.new)
        (fields_from file.now head (length text.old) head.preamble.count 0 start (take from text.old)) result }
{
    let preamble = head.preamble;
    let sections = head.sections;
    let strict = head.strict;
    let mut place = start;
    let mut at = from;
    for tag in 0..preamble.count {
        let field = write_field(&mut text[at..], tag, file, strict, sections.metadata, place)?;
        at += field.size;
        place = field.next;
    }
    Ok(at)
}

// The fields of all matches: how much of the text is used.
pub(crate) fn write_fields(
    text: &mut [u8],
    file: &[u8],
    head: Head,
    hits: &[u32],
    count: usize,
) -> Result<usize, Refusal>
    requires { (text.old ≡ zeros (length text.old)) × (count ≤ length hits.now / width) }
    ensures { Agrees (Wrote (length text.old) text.new)
        (fields_of file.now head (length text.old) (take count (slots hits.now)) []) result }
{
    let mut at = 0;
    for i in 0..count {
        let hit = hit_at(hits, i);
        let start = fields_place(head, hit.metadata);
        at = write_match(text, at, file, head, start)?;
    }
    Ok(at)
}
