// Where the records begin in the section.
// Stays, point 6: C lends lengths and texts as two lists, and no heap holds strings; writing into a list of no bytes tells a size.
ghost use mathlib.Core.{Path.{◌≡◌}, List.{map}};
ghost use Rattle.std.specs.Prelude.{◌+◌, ◌*◌, ◌^◌, ◌≤◌, ◌<◌, length};
ghost use Rattle.builder.specs.{Metadata.{field_bytes, joined_from}, Yards.{cut_by, sum_of}};
ghost use Rattle.builder.specs.inner.Drawing.Section.{spread};
ghost use Rattle.builder.specs.Grouping.Keys.{numbers_from};
ghost use Rattle.build.specs.Metadata.Kept.{begin_of, Ready};

use builder::records::put_records;

// The bytes of a record, by its fields' words.
fn record_size(records: u32, words: &[u32], lengths: &[u32], texts: &[u8]) -> usize
    requires { (length lengths.now ≤ length words.now) × (sum_of lengths.now ≤ length texts.now) × (0 + sum_of lengths.now + 10 * length lengths.now < 2 ^ 60) }
    ensures { result ≡ length (joined_from (field_bytes records words.now) 0 (cut_by lengths.now texts.now)) }
{
    let mut nothing = [0u8; 0];
    put_records(&mut nothing, 0, records, words, lengths, texts)
}

// For each yard where its record begins, in the place where its first yard stood.
pub(crate) fn place_records(
    names: usize,
    records: u32,
    count: usize,
    words: &[u32],
    lengths: &[u32],
    texts: &[u8],
    starts: &[u32],
    places: &mut [u32],
)
    requires { Ready names records count words.now lengths.now texts.now starts.now places.old }
    ensures { places.new ≡ spread 0 (map (begin_of names lengths.now texts.now count) (numbers_from 0 count)) places.old }
{
    let mut begin = 0;
    let mut field = 0;
    for here in 0..count {
        let first = places[2 * here] as usize;
        if first == here {
            places[2 * here] = begin as u32;
            let at = here * names;
            let to = at + names;
            let from = starts[at] as usize;
            let end = starts[to] as usize;
            let next = field + names;
            begin += record_size(
                records,
                &words[field..next],
                &lengths[at..to],
                &texts[from..end],
            );
            field = next;
        } else {
            places[2 * here] = places[2 * first];
        }
    }
}
