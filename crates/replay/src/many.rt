// Many fixes: 30 bytes of what is asked, the latitudes, the longitudes, the file; the reply's 30 bytes, the slots, the third list, the text.
ghost use Rattle.std.specs.Prelude.{◌≡◌, ◌+◌, ◌*◌, ◌≤◌, length};

use crate::calls::{filled_words, in_four, leave_out};
use numbers::float::bits::of_bits;
use recorded::record::{byte_at, long_at, word_at};
use recorded::reply::{Reply, spoken, unspoken};
use uskelzar::many::uskelzar_lookup_many;

// So many coordinates from a place of the record on.
pub fn fixes_at(record: &[u8], at: usize, count: usize) -> [f32; 4097]
    requires { count ≤ 4097 }
    ensures { length result ≡ 4097 }
{
    let mut list = [0.0; 4097];
    let mut place = at;
    for i in 0..count {
        list[i] = of_bits(word_at(record, place));
        place = place.wrapping_add(4);
    }
    list
}

fn ask_many(
    record: &[u8],
    lats: &[f32],
    lons: &[f32],
    file: &[u8],
    slots: &mut [u32],
    text: &mut [u8],
    answers: &mut [u32],
) -> Reply {
    let asked = byte_at(record, 5) != 0;
    let mut said = unspoken();
    let number = uskelzar_lookup_many(file, lats, lons, asked, slots, text, answers, &mut said);
    spoken(number, said)
}

fn ask_without_places(
    record: &[u8],
    lats: &[f32],
    lons: &[f32],
    file: &[u8],
    words: &mut [u32],
    slots: &mut [u32],
    text: &mut [u8],
    answers: &mut [u32],
) -> Reply {
    let reply = ask_many(record, lats, lons, file, words, text, answers);
    leave_out(words, slots);
    reply
}

fn ask_in_three(
    record: &[u8],
    lats: &[f32],
    lons: &[f32],
    file: &[u8],
    slots: &mut [u32],
    text: &mut [u8],
    answers: &mut [u32],
) -> Reply {
    let size = in_four(slots.len());
    let mut words = filled_words();
    ask_without_places(
        record,
        lats,
        lons,
        file,
        &mut words[..size],
        slots,
        text,
        answers,
    )
}

// 17 has four words a hit, 9 three: the place is left out.
fn ask_either(
    record: &[u8],
    lats: &[f32],
    lons: &[f32],
    file: &[u8],
    slots: &mut [u32],
    text: &mut [u8],
    answers: &mut [u32],
) -> Reply {
    match byte_at(record, 0) {
        17 => ask_many(record, lats, lons, file, slots, text, answers),
        _ => ask_in_three(record, lats, lons, file, slots, text, answers),
    }
}

// What the record asks for, into the lent lists.
pub fn run_many(
    record: &[u8],
    lats: usize,
    lons: usize,
    file: &[u8],
    slots: &mut [u32],
    text: &mut [u8],
    answers: &mut [u32],
) -> Reply
    requires { (lats ≤ 4097) × (lons ≤ 4097) }
{
    let x = fixes_at(record, 30, lats);
    let y = fixes_at(record, 30 + 4 * lats, lons);
    ask_either(record, &x[..lats], &y[..lons], file, slots, text, answers)
}

// The reply that 30 bytes of a record hold: the index stands before the values.
pub fn recorded_many(bytes: &[u8]) -> Reply {
    let outcome = byte_at(bytes, 0);
    let index = long_at(bytes, 14);
    let fixes = long_at(bytes, 18);
    let matches = long_at(bytes, 22);
    let used = long_at(bytes, 26);
    Reply {
        outcome,
        number: long_at(bytes, 1),
        cause: byte_at(bytes, 5) as u64,
        detail: long_at(bytes, 6) | long_at(bytes, 10) << 32,
        words: if outcome == 0 {
            [fixes, matches, used, 0, 0]
        } else {
            [index, 0, 0, 0, 0]
        },
    }
}
