// Texts, one after another in a list, by their lengths.
// Stays, point 6: C lends lengths and texts as two lists, and no heap holds strings; a text of 255 bytes at most has an array.
ghost use mathlib.Core.{Path.{◌≡◌}, List.{flat_map}};
ghost use Rattle.std.specs.Prelude.{◌+◌, ◌*◌, ◌^◌, ◌≤◌, ◌<◌, length};
ghost use Rattle.writer.specs.inner.Stored.{Stored};
ghost use Rattle.builder.specs.{Yards.{cut_by, sum_of}, Metadata.{inlined}, File.{is_text, are_texts}};

use crate::put::{put_masked, put_text};
use header::utf8::is_utf8;

// A text is at most 255 bytes long, and UTF-8.
fn is_text(text: &[u8]) -> bool
    ensures { result ≡ is_text text.now }
{
    let size = text.len();
    if 255 < size {
        return false;
    }
    let mut stored = [0u8; 255];
    put_masked(&mut stored, 0, text);
    is_utf8(&stored[..size])
}

// All texts are there, and each is a text.
pub fn are_texts(lengths: &[u32], texts: &[u8]) -> bool
    ensures { result ≡ are_texts lengths.now texts.now }
{
    let mut at = 0;
    for length in lengths {
        let size = *length as usize;
        if texts.len() - at < size {
            return false;
        }
        let end = at + size;
        if !is_text(&texts[at..end]) {
            return false;
        }
        at = end;
    }
    true
}

// All texts inline.
pub(crate) fn put_texts(out: &mut [u8], place: usize, lengths: &[u32], texts: &[u8]) -> usize
    requires { (sum_of lengths.now ≤ length texts.now) × (place + sum_of lengths.now + 10 * length lengths.now < 2 ^ 60) }
    ensures { Stored out.old place (flat_map inlined (cut_by lengths.now texts.now)) out.new result }
{
    let mut next = place;
    let mut at = 0;
    for length in lengths {
        let end = at + *length as usize;
        next = put_text(out, next, &texts[at..end]);
        at = end;
    }
    next
}
