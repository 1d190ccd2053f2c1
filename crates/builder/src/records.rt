// The records: each field inline, or a word that says where its text lies.
// Stays, point 6: C lends lengths and texts as two lists, and no heap holds strings.
ghost use Rattle.std.specs.Prelude.{◌≡◌, ◌+◌, ◌*◌, ◌^◌, ◌≤◌, ◌<◌, length};
ghost use Rattle.writer.specs.inner.Stored.{Stored};
ghost use Rattle.builder.specs.{Yards.{cut_by, sum_of}, Metadata.{word_bytes, field_bytes, joined_from}};

use crate::put::{put_text, put_varint};

// A field by its word, if the records take this length.
fn put_field(out: &mut [u8], place: usize, records: u32, word: u32, text: &[u8]) -> usize
    requires { place + length text.now < 2 ^ 61 }
    ensures { Stored out.old place (word_bytes records word text.now) out.new result }
{
    if word == 0 {
        return put_text(out, place, text);
    }
    put_varint(out, place, 255 + records as u64 + word as u64)
}

// The fields of all records, by their words; the lengths are those of their texts.
pub fn put_records(
    out: &mut [u8],
    place: usize,
    records: u32,
    words: &[u32],
    lengths: &[u32],
    texts: &[u8],
) -> usize
    requires { (length lengths.now ≤ length words.now) × (sum_of lengths.now ≤ length texts.now) × (place + sum_of lengths.now + 10 * length lengths.now < 2 ^ 60) }
    ensures { Stored out.old place (joined_from (field_bytes records words.now) 0 (cut_by lengths.now texts.now)) out.new result }
{
    let mut next = place;
    let mut at = 0;
    for (i, length) in lengths.iter().enumerate() {
        let end = at + *length as usize;
        next = put_field(out, next, records, words[i], &texts[at..end]);
        at = end;
    }
    next
}
