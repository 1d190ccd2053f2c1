// The table: an entry for each yard, in the order of the sorted words, whose lower halves are yards.
// Stays, point 2: `number_at` and `word_at` are one line of std's words each, and the zero in the clause has another type.
ghost use mathlib.Core.{Path.{◌≡◌}, List.{map}};
ghost use Rattle.std.specs.Prelude.{◌+◌, ◌*◌, ◌^◌, ◌<◌};
ghost use lib.{IntN.{pos}, ListN.{length, get_or}};
ghost use Rattle.writer.specs.inner.Stored.{Stored};
ghost use Rattle.builder.specs.Entries.{table_from, bounds_at, places_at, entry_of_word};

use crate::boxes::Bounds;
use crate::entry::{Places, put_entry};

fn number_at(list: &[i32], i: usize) -> i32
    ensures { result ≡ get_or list.now i (pos 0) }
{
    list.get(i).copied().unwrap_or(0)
}

fn word_at(list: &[u32], i: usize) -> u32
    ensures { result ≡ get_or list.now i 0 }
{
    list.get(i).copied().unwrap_or(0)
}

// Four numbers a yard.
fn bounds_at(boxes: &[i32], yard: usize) -> Bounds
    requires { yard < 2 ^ 32 }
    ensures { result ≡ bounds_at boxes.now yard }
{
    let at = 4 * yard;
    Bounds {
        south: number_at(boxes, at),
        west: number_at(boxes, at + 1),
        north: number_at(boxes, at + 2),
        east: number_at(boxes, at + 3),
    }
}

// Two words a yard.
fn places_at(places: &[u32], yard: usize) -> Places
    requires { yard < 2 ^ 32 }
    ensures { result ≡ places_at places.now yard }
{
    let at = 2 * yard;
    Places {
        record: word_at(places, at),
        border: word_at(places, at + 1),
    }
}

pub fn put_table(
    out: &mut [u8],
    place: usize,
    words: &[u64],
    boxes: &[i32],
    places: &[u32],
) -> usize
    requires { place + 60 * length words.now < 2 ^ 60 }
    ensures { Stored out.old place (table_from 0 0 (map (entry_of_word boxes.now places.now) words.now)) out.new result }
{
    let mut next = place;
    let mut last = Places {
        record: 0,
        border: 0,
    };
    for word in words {
        let yard = (*word % 0x1_0000_0000) as usize;
        let bounds = bounds_at(boxes, yard);
        let here = places_at(places, yard);
        next = put_entry(out, next, bounds, last, here);
        last = here;
    }
    next
}
