// Strings as they go out into a lent text.
// Stays, point 7: a file is read plainly or strictly as C asks; the definitions take a Bool, a const parameter would compile it twice.
ghost use mathlib.Core.{Path.{◌≡◌}, List.{map}};
ghost use Rattle.std.specs.Prelude.{◌+◌, ◌≤◌, ◌<◌, length};
ghost use Rattle.numbers.specs.Lists.{zeros, over};
ghost use Rattle.header.specs.{Utf8.{unmasked}, Field.{entry, field, field_at, sent_of, text_after}};

use crate::text::{Blame, read_text};
use numbers::fault::Fault;
use numbers::refusal::Refusal;

// A field that went out: how many bytes of the text it took, and the place to read on from.
#[derive(Clone, Copy)]
pub struct Sent {
    pub size: usize,
    pub next: usize,
}

pub fn zero(text: &mut [u8])
    ensures { text.new ≡ zeros (length text.old) }
{
    text.fill(0);
}

// Stored bytes over the front of a text, each taken XOR 0x80.
pub fn unmask(text: &mut [u8], stored: &[u8])
    requires { length stored.now ≤ length text.old }
    ensures { text.new ≡ over (map unmasked stored.now) text.old }
{
    for (i, byte) in stored.iter().enumerate() {
        text[i] = *byte ^ 0x80;
    }
}

// A string at the front of a text: its length in two bytes, the high one first, and its bytes.
pub(crate) fn put_entry(text: &mut [u8], stored: &[u8])
    requires { (length stored.now + 2 ≤ length text.old) × (length stored.now < 65536) }
    ensures { text.new ≡ over (entry (map unmasked stored.now)) text.old }
{
    let size = stored.len();
    text[0] = (size / 256) as u8;
    text[1] = (size % 256) as u8;
    unmask(&mut text[2..], stored);
}

// The same after a one-byte tag.
pub(crate) fn put_field(text: &mut [u8], tag: u8, stored: &[u8])
    requires { (length stored.now + 3 ≤ length text.old) × (length stored.now < 65536) }
    ensures { text.new ≡ over (field tag (map unmasked stored.now)) text.old }
{
    text[0] = tag;
    put_entry(&mut text[1..], stored);
}

// The field value at a place of the file goes out, with its tag, at the front of what remains of the text; a fault in it comes before 18.
pub fn write_field(
    text: &mut [u8],
    tag: u8,
    file: &[u8],
    strict: bool,
    metadata: u32,
    place: usize,
) -> Result<Sent, Refusal>
    ensures { (result ≡ sent_of (field_at strict file.now metadata place tag (length text.old)))
        × (text.new ≡ text_after (field_at strict file.now metadata place tag (length text.old)) text.old) }
{
    let blame = Blame {
        number: Fault::BadField as u8,
        detail: 0,
    };
    let string = read_text(file, strict, metadata, place, blame)?;
    let start = string.start;
    let size = string.size;
    if text.len() < size + 3 {
        return Err(Fault::TextFull.alone());
    }
    put_field(text, tag, &file[start..start + size]);
    Ok(Sent {
        size: size + 3,
        next: string.next,
    })
}
