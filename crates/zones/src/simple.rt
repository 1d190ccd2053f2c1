// Simple lookup: a description of the first match. The fields of every match are checked; only the description needs text room.
ghost use mathlib.Core.{Path.{◌≡◌}, List.{map, ◌++◌}};
ghost use Rattle.std.specs.Prelude.{◌+◌, ◌/◌, ◌≤◌, eqb, length, take};
ghost use Rattle.std.specs.List.{list_all, zip};
ghost use Rattle.numbers.specs.Lists.{zeros};
ghost use Rattle.header.specs.{Utf8.{unmasked}, Text.{bytes_of}};
ghost use Rattle.table.specs.{Hits.{width, slots}, inner.Agreeing.{Agrees}};
ghost use Rattle.zones.specs.{Fields.{Wrote}, Lent.{Filled, replied}};
ghost use Rattle.zones.specs.Simple.{same, part_of, begun, newer, picked_from, description_at, told_named, LiesNamed, checked, fitting, worded_of, Worded};
ghost use Rattle.zones.specs.Simple.{describing, described_with, simply_looked_with, simply_looked, ToldSimply};

use crate::fields::fields_place;
use header::field::{unmask, zero};
use header::header::{Head, head_of, read_header_text};
use header::text::{Blame, Text, read_text};
use header::zero::zero_both;
use numbers::fault::Fault;
use numbers::refusal::Refusal;
use table::find::{Matches, find_in};
use table::hits::hit_at;
use table::location::Location;

// The description by how many bytes of the text it takes, none where there is no match or a wanted name is missing; with the number of matches and the end mark.
#[derive(Clone, Copy)]
pub struct Described {
    pub matches: usize,
    pub mark: u8,
    pub description: Option<usize>,
}

// The last value of each of the two wanted names.
#[derive(Clone, Copy)]
pub struct Picked {
    pub one: Option<Text>,
    pub two: Option<Text>,
}

// A name stands in the file in one part after the other; a country's second part is empty.
#[derive(Clone, Copy)]
pub struct Parts {
    pub one: Text,
    pub two: Text,
}

// Each stored byte is the name's, one beside the other.
fn all_unmasked(stored: &[u8], name: &[u8]) -> bool
    ensures { result ≡ list_all (λ pair. eqb (unmasked pair.0) pair.1) (zip stored.now name.now) }
{
    stored
        .iter()
        .zip(name)
        .all(|(byte, other)| *byte ^ 0x80 == *other)
}

// Whether a stored name is this one.
fn is_called(stored: &[u8], name: &[u8]) -> bool
    ensures { result ≡ same (map unmasked stored.now) name.now }
{
    stored.len() == name.len() && all_unmasked(stored, name)
}

// Which part of the description a field of this name is: 1, 2, or 0 for none.
// Stays a switch: names of the file, compared one after another; any kind but 'T' is taken as a country's.
fn part_of(file: &[u8], kind: u8, called: Text) -> u8
    requires { called.start + called.size ≤ length file.now }
    ensures { result ≡ part_of kind (bytes_of file.now called) }
{
    let start = called.start;
    let end = start + called.size;
    if kind == b'T' {
        if is_called(&file[start..end], b"TimezoneIdPrefix") {
            return 1;
        }
        if is_called(&file[start..end], b"TimezoneId") {
            return 2;
        }
        return 0;
    }
    if is_called(&file[start..end], b"Name") {
        return 1;
    }
    0
}

// A country's name is all of its description.
// Stays, points 4 and 7: what picking begins with, by one test; any kind but 'T' is taken as a country's.
fn begun(kind: u8) -> Picked
    ensures { result ≡ begun kind }
{
    if kind == b'T' {
        return Picked {
            one: None,
            two: None,
        };
    }
    Picked {
        one: None,
        two: Some(Text {
            start: 0,
            size: 0,
            next: 0,
        }),
    }
}

fn newer(part: u8, value: Text, last: Picked) -> Picked
    ensures { result ≡ newer part value last }
{
    if part == 1 {
        let two = last.two;
        return Picked {
            one: Some(value),
            two,
        };
    }
    if part == 2 {
        let one = last.one;
        return Picked {
            one,
            two: Some(value),
        };
    }
    last
}

// The wanted fields of the match whose fields begin at a place, each name beside its value.
fn pick(file: &[u8], head: Head, start: usize) -> Result<Picked, Refusal>
    ensures { result ≡ picked_from file.now head head.preamble.count 0 7 start (begun head.preamble.kind) }
{
    let preamble = head.preamble;
    let sections = head.sections;
    let strict = head.strict;
    let names = preamble.count as usize;
    let blame = Blame {
        number: Fault::BadField as u8,
        detail: 0,
    };
    let mut name = 7;
    let mut place = start;
    let mut last = begun(preamble.kind);
    for index in 0..names {
        let called = read_header_text(file, strict, names, index, name)?;
        let value = read_text(file, strict, sections.metadata, place, blame)?;
        last = newer(part_of(file, preamble.kind, called), value, last);
        name = called.next;
        place = value.next;
    }
    Ok(last)
}

// What a match with this metadata id is called: where the parts of its name stand, none where one is missing; in a file whose header was read; any header is taken.
pub fn name_of(file: &[u8], head: Head, metadata: u32) -> Result<Option<Parts>, Refusal>
    ensures { (told_named file.now result ≡ description_at file.now head metadata) × LiesNamed (length file.now) result }
{
    let picked = pick(file, head, fields_place(head, metadata))?;
    let Some(one) = picked.one else {
        return Ok(None);
    };
    let Some(two) = picked.two else {
        return Ok(None);
    };
    Ok(Some(Parts { one, two }))
}

// The fields of every match can be read.
fn check(file: &[u8], head: Head, hits: &[u32], count: usize) -> Result<(), Refusal>
    requires { count ≤ length hits.now / width }
    ensures { result ≡ checked file.now head (take count (slots hits.now)) }
{
    for i in 0..count {
        let hit = hit_at(hits, i);
        let start = fields_place(head, hit.metadata);
        pick(file, head, start)?;
    }
    Ok(())
}

// One string after the other, in a text that is zero.
fn join(text: &mut [u8], file: &[u8], one: Text, two: Text) -> Result<usize, Refusal>
    requires { (text.old ≡ zeros (length text.old)) × (one.start + one.size ≤ length file.now) × (two.start + two.size ≤ length file.now) }
    ensures { Agrees (Wrote (length text.old) text.new)
        (fitting (length text.old) (bytes_of file.now one ++ bytes_of file.now two)) result }
{
    let first = one.start;
    let size = one.size;
    let second = two.start;
    let more = two.size;
    if text.len() < size {
        return Err(Fault::TextFull.alone());
    }
    if text.len() - size < more {
        return Err(Fault::TextFull.alone());
    }
    unmask(text, &file[first..first + size]);
    unmask(&mut text[size..], &file[second..second + more]);
    Ok(size + more)
}

// The description of the first match, in a text that is zero.
fn describe(
    text: &mut [u8],
    file: &[u8],
    head: Head,
    hits: &[u32],
    count: usize,
) -> Result<Option<usize>, Refusal>
    requires { (text.old ≡ zeros (length text.old)) × (count ≤ length hits.now / width) }
    ensures { Agrees (Worded (length text.old) text.new)
        (worded_of file.now head (length text.old) (take count (slots hits.now))) result }
{
    if count == 0 {
        return Ok(None);
    }
    let hit = hit_at(hits, 0);
    let Some(parts) = name_of(file, head, hit.metadata)? else {
        return Ok(None);
    };
    let size = join(text, file, parts.one, parts.two)?;
    Ok(Some(size))
}

// After a search: the fields of its matches are checked, and the first is described, in a text that is zero.
pub fn tell(
    file: &[u8],
    head: Head,
    found: Matches,
    hits: &[u32],
    text: &mut [u8],
) -> Result<Described, Refusal>
    requires { (text.old ≡ zeros (length text.old)) × (found.count ≤ length hits.now / width) }
    ensures { Agrees (ToldSimply (length text.old) text.new found)
        (describing file.now head (length text.old) (take found.count (slots hits.now))) result }
{
    let matches = found.count;
    check(file, head, hits, matches)?;
    let description = describe(text, file, head, hits, matches)?;
    Ok(Described {
        matches,
        mark: found.mark,
        description,
    })
}

// In a text that is zero.
fn look(
    file: &[u8],
    head: Head,
    location: Location,
    hits: &mut [u32],
    text: &mut [u8],
) -> Result<Described, Refusal>
    requires { text.old ≡ zeros (length text.old) }
    ensures { Agrees (Filled (length hits.old) (length text.old) hits.new text.new)
        (described_with file.now head location (length hits.old) (length text.old)) result }
{
    let found = find_in(file, head, location, false, hits)?;
    tell(file, head, found, hits, text)
}

// In a file whose header was read; any header is taken.
// Stays apart from `simple_lookup`: a header that was read once serves it.
pub(crate) fn simple_lookup_in(
    file: &[u8],
    head: Head,
    location: Location,
    hits: &mut [u32],
    text: &mut [u8],
) -> Result<Described, Refusal>
    ensures { replied result hits.new text.new
        ≡ simply_looked_with file.now head location (length hits.old) (length text.old) }
{
    zero(text);
    let described = look(file, head, location, hits, text);
    if described.is_err() {
        zero_both(hits, text);
    }
    described
}

// Stays parameters: docs/ name it beside what it takes.
pub fn simple_lookup(
    file: &[u8],
    location: Location,
    hits: &mut [u32],
    text: &mut [u8],
) -> Result<Described, Refusal>
    ensures { replied result hits.new text.new
        ≡ simply_looked file.now location (length hits.old) (length text.old) }
{
    let head = match head_of(file) {
        Ok(head) => head,
        Err(why) => {
            zero_both(hits, text);
            return Err(why);
        }
    };
    simple_lookup_in(file, head, location, hits, text)
}
