// The strings of an entry: read, and wholly in the metadata section.
// Stays, point 5: any header is taken with any file, so a struct of `file, head` would hold no fact.
ghost use Rattle.std.specs.Prelude.{◌≡◌};
ghost use Rattle.salvage.specs.Kept.{in_section, span_inside, string_inside, field_good, fields_good};

use header::header::Head;
use header::text::{Blame, read_text};
use numbers::fault::Fault;
use numbers::refusal::Refusal;
use numbers::varint::read_number;

// Whether the bytes from one place up to another lie in the metadata section.
pub(crate) fn in_section(head: Head, from: usize, to: usize) -> bool
    ensures { result ≡ in_section head from to }
{
    head.sections.metadata as usize <= from && to <= head.sections.data as usize
}

// Whether a length at a place and the bytes behind it do.
pub(crate) fn span_inside(file: &[u8], head: Head, place: usize) -> bool
    ensures { result ≡ span_inside file.now head place }
{
    let Ok(number) = read_number(file, place, head.strict) else {
        return false;
    };
    if 0xFFFF_FFFF < number.value {
        return false;
    }
    in_section(head, place, number.place + number.value as usize)
}

// Whether a string does, its lengths included.
pub(crate) fn string_inside(file: &[u8], head: Head, place: usize) -> bool
    ensures { result ≡ string_inside file.now head place }
{
    let Ok(number) = read_number(file, place, head.strict) else {
        return false;
    };
    if number.value < 256 {
        return in_section(head, place, number.place + number.value as usize);
    }
    if in_section(head, place, number.place) {
        let away = (head.sections.metadata as u64 + (number.value - 256) % 0x1_0000_0000)
            % 0x1_0000_0000;
        return span_inside(file, head, away as usize);
    }
    false
}

// A field value, read and then placed. The answer: the place of the next.
pub(crate) fn field_good(file: &[u8], head: Head, place: usize) -> Result<usize, Refusal>
    ensures { result ≡ field_good file.now head place }
{
    let blame = Blame {
        number: Fault::BadField as u8,
        detail: 0,
    };
    let text = read_text(file, head.strict, head.sections.metadata, place, blame)?;
    if !string_inside(file, head, place) {
        return Err(Fault::StringOutside.alone());
    }
    Ok(text.next)
}

// So many of them, one after the other.
// Stays a length: it counts texts, not bytes.
pub(crate) fn fields_good(
    file: &[u8],
    head: Head,
    count: usize,
    place: usize,
) -> Result<(), Refusal>
    ensures { result ≡ fields_good file.now head count place }
{
    let mut here = place;
    for _ in 0..count {
        here = field_good(file, head, here)?;
    }
    Ok(())
}
