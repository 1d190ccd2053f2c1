// The texts behind the records, by first use.
// Stays, point 6: C lends lengths and texts as two lists, and no heap holds strings.
ghost use mathlib.Core.{Path.{◌≡◌}, List.{map, flat_map}};
ghost use Rattle.std.specs.Prelude.{◌+◌, ◌*◌, ◌^◌, ◌≤◌, ◌<◌, length, take};
ghost use Rattle.writer.specs.inner.Stored.{Stored};
ghost use Rattle.builder.specs.{Metadata.{inlined, remotes}, Yards.{cut_by, sum_of}};
ghost use Rattle.build.specs.inner.Metadata.Words.{word_in};

use builder::put::put_text;

// A field is the first use of its text if its word says that it begins where the texts so far end.
pub(crate) fn put_remotes(
    out: &mut [u8],
    place: usize,
    words: &[u32],
    lengths: &[u32],
    texts: &[u8],
) -> usize
    requires { (length lengths.now ≤ length words.now) × (sum_of lengths.now ≤ length texts.now) × (place + sum_of lengths.now + 10 * length lengths.now < 2 ^ 60) × (take (length lengths.now) words.now ≡ map (word_in (cut_by lengths.now texts.now)) (cut_by lengths.now texts.now)) }
    ensures { Stored out.old place (flat_map inlined (remotes (cut_by lengths.now texts.now))) out.new result }
{
    let mut next = place;
    let mut at = 0;
    for (i, length) in lengths.iter().enumerate() {
        let here = at;
        at += *length as usize;
        let word = words[i] as usize;
        if word == next - place + 1 {
            next = put_text(out, next, &texts[here..at]);
        }
    }
    next
}
