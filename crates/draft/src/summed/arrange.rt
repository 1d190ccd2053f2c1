// The held yards laid out anew: their records, and the order of the table.
// Stays, point 6: C lends these lists, longer than what stands in them, and keeps the builder's between the calls.
ghost use mathlib.Core.{Path.{◌≡◌}, List.{map}};
ghost use Rattle.std.specs.Prelude.{◌*◌, ◌≤◌, length};
ghost use Rattle.builder.specs.Entries.{word_of_yard};
ghost use Rattle.builder.specs.inner.Drawing.Section.{spread};
ghost use Rattle.builder.specs.Grouping.Keys.{numbers_from};
ghost use Rattle.layout.specs.Order.{key_of, sorted_by};
ghost use Rattle.build.specs.Room.{work_of};
ghost use Rattle.draft.specs.inner.Summed.Sums.{Arranging, Arranged};

use build::entries::south::put_yard_words;
use build::recording::section::{Section, lay_records};
use layout::order::sort;

// Where the borders begin, at every second place.
fn spread_borders(borders: &[u32], places: &mut [u32])
    requires { 2 * length borders.now ≤ length places.old }
    ensures { places.new ≡ spread 1 borders.now places.old }
{
    for (i, border) in borders.iter().enumerate() {
        places[2 * i + 1] = *border;
    }
}

// The yards' words by lower latitude; the last list is room to sort in.
fn order_boxes(boxes: &[i32], keys: &mut [u64], spare: &mut [u64])
    requires { (length keys.old ≤ 4096) × (4 * length keys.old ≤ length boxes.now) × (length keys.old ≤ length spare.old) }
    ensures { keys.new ≡ sorted_by key_of (map (word_of_yard boxes.now) (numbers_from 0 (length keys.old))) }
{
    put_yard_words(boxes, keys);
    sort(keys, spare);
}

// The records, where each yard's record and border begin, and the yards in the order of the table, at the front of the keys.
pub(crate) fn lay_out(
    names: usize,
    count: usize,
    boxes: &[i32],
    borders: &[u32],
    lengths: &[u32],
    texts: &[u8],
    starts: &mut [u32],
    keys: &mut [u64],
    spare: &mut [u64],
    kept: &mut [u32],
    held: &mut [u8],
    words: &mut [u32],
    places: &mut [u32],
) -> Section
    requires { Arranging names count lengths.now texts.now (length borders.now) (work_of (length starts.old) (length keys.old) (length spare.old) (length kept.old) (length held.old) (length words.old) (length places.old) (length boxes.now)) }
    ensures { Arranged names count boxes.now borders.now lengths.now texts.now places.old keys.new kept.new held.new words.new places.new result.records result.remote result.lengths result.bytes }
{
    spread_borders(&borders[..count], places);
    let section = lay_records(
        names, count, lengths, texts, starts, keys, spare, kept, held, words, places,
    );
    order_boxes(boxes, &mut keys[..count], spare);
    section
}
