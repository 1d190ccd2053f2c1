// The tile index: 25 bytes of what is asked, the file, the file to look up in, 17 bytes for each fix; then what is expected: 26 bytes of building, and for each
// fix a lookup's reply, slots and text. Every fix is looked up by both functions, and the words are held against the file by the one that only does that.
ghost use Rattle.std.specs.Prelude.{◌≡◌, length};

use crate::calls::{filled_words, in_four, leave_out};
use numbers::float::bits::of_bits;
use office::tiles::uskelzar_build_index;
use recorded::record::{byte_at, long_at, same_bytes_at, same_words_at, size_at, word_at};
use recorded::reply::{Reply, print_reply, recorded_at, same_reply, spoken, unspoken};
use std::io::Stdout;
use uskelzar::tiles::{uskelzar_index_tied, uskelzar_lookup_indexed, uskelzar_lookup_through};

// So many words' and so many fixes' bytes.
fn times_4(count: usize) -> usize {
    if count < 65536 { 4 * count } else { 0 }
}

fn times_17(count: usize) -> usize {
    if count < 65536 { 17 * count } else { 0 }
}

// FNV-1a: times 2^40 + 2^8 + 2^7 + 2^5 + 2^4 + 2 + 1, modulo 2^64.
fn mixed(sum: u64, byte: u64) -> u64 {
    let x = sum ^ byte;
    let low = x.wrapping_add(x << 1);
    let next = (x << 4).wrapping_add(x << 5);
    let high = (x << 7).wrapping_add(x << 8);
    low.wrapping_add(next)
        .wrapping_add(high)
        .wrapping_add(x << 40)
}

fn mixed_word(sum: u64, word: u64) -> u64 {
    let one = mixed(sum, word % 0x100);
    let two = mixed(one, word / 0x100 % 0x100);
    let three = mixed(two, word / 0x1_0000 % 0x100);
    mixed(three, word / 0x100_0000 % 0x100)
}

// A word that is counted goes into the sum; another must be zero, and adds something where it is not.
// Stays a flag: it is asked anew of each word, and two functions would want the same test where they are called.
fn added(sum: u64, word: u32, counts: bool) -> u64 {
    if counts {
        return mixed_word(sum, u64::from(word));
    }
    sum.wrapping_add(u64::from(word))
}

// The sum of the first so many words, with all others zero.
fn sum_of(index: &[u32], used: u64) -> u64 {
    let mut sum = 0xCBF2_9CE4_8422_2325;
    for (i, word) in index.iter().enumerate() {
        sum = added(sum, *word, (i as u64) < used);
    }
    sum
}

// The reply of building that a record holds: the words used behind cause and detail.
fn recorded_built(record: &[u8], at: usize) -> Reply {
    let head = recorded_at(record, at);
    Reply {
        outcome: head.outcome,
        number: head.number,
        cause: head.cause,
        detail: head.detail,
        words: [head.words[0], 0, 0, 0, 0],
    }
}

// Building: outcome, number, cause, detail, words used and their sum; where it is refused every word must be zero.
fn built_right(record: &[u8], at: usize, file: &[u8], index: &mut [u32]) -> bool {
    let mut words = unspoken();
    let number = uskelzar_build_index(file, index, &mut words);
    let got = spoken(number, words);
    let low = long_at(record, at.wrapping_add(18));
    let high = long_at(record, at.wrapping_add(22));
    if !same_reply(got, recorded_built(record, at)) {
        return false;
    }
    if number == 0 {
        return sum_of(index, got.words[0]) == low | high << 32;
    }
    sum_of(index, 0) == 0xCBF2_9CE4_8422_2325
}

// The fix of a record, looked up; how is for the caller to say.
fn ask<F: Fn(f32, f32, bool, &mut [u32], &mut [u8], &mut [u64; 5]) -> u8>(
    record: &[u8],
    fix: usize,
    look: &F,
    slots: &mut [u32],
    text: &mut [u8],
) -> Reply
    requires { F.IsAlwaysCallable look.now }
{
    let lat = of_bits(word_at(record, fix));
    let lon = of_bits(word_at(record, fix.wrapping_add(4)));
    let asked = byte_at(record, fix.wrapping_add(8)) != 0;
    let mut words = unspoken();
    let number = look(lat, lon, asked, slots, text, &mut words);
    spoken(number, words)
}

// With three words a hit.
fn ask_in_three<F: Fn(f32, f32, bool, &mut [u32], &mut [u8], &mut [u64; 5]) -> u8>(
    record: &[u8],
    fix: usize,
    look: &F,
    slots: &mut [u32],
    text: &mut [u8],
) -> Reply
    requires { F.IsAlwaysCallable look.now }
{
    let size = in_four(slots.len());
    let mut words = filled_words();
    let lent = &mut words[..size];
    let reply = ask(record, fix, look, lent, text);
    leave_out(lent, slots);
    reply
}

fn ask_either<F: Fn(f32, f32, bool, &mut [u32], &mut [u8], &mut [u64; 5]) -> u8>(
    record: &[u8],
    fix: usize,
    look: &F,
    slots: &mut [u32],
    text: &mut [u8],
) -> Reply
    requires { F.IsAlwaysCallable look.now }
{
    if byte_at(record, 0) == 13 {
        return ask_in_three(record, fix, look, slots, text);
    }
    ask(record, fix, look, slots, text)
}

fn filled_bytes() -> [u8; 1024]
    ensures { 1024 ≡ length result }
{
    [0xAA; 1024]
}

fn filled_index() -> [u32; 8448]
    ensures { 8448 ≡ length result }
{
    [0xAAAA_AAAA; 8448]
}

// A lookup's reply, slots and text, as the record has them from a place on.
fn looked_right<F: Fn(f32, f32, bool, &mut [u32], &mut [u8], &mut [u64; 5]) -> u8>(
    to: Stdout,
    record: &[u8],
    fix: usize,
    at: usize,
    look: &F,
    slots: &mut [u32],
    text: &mut [u8],
) -> bool
    requires { F.IsAlwaysCallable look.now }
{
    let got = ask_either(record, fix, look, slots, text);
    if !same_reply(got, recorded_at(record, at)) {
        print_reply(to, got);
        return false;
    }
    let words = at.wrapping_add(34);
    if !same_words_at(slots, record, words) {
        return false;
    }
    same_bytes_at(text, record, words.wrapping_add(times_4(slots.len())))
}

// A fix: the bytes of what is expected; none where it came out otherwise.
fn fix_right<F: Fn(f32, f32, bool, &mut [u32], &mut [u8], &mut [u64; 5]) -> u8>(
    to: Stdout,
    record: &[u8],
    fix: usize,
    at: usize,
    look: &F,
) -> Option<usize>
    requires { F.IsAlwaysCallable look.now }
{
    let count = size_at(record, fix.wrapping_add(9));
    let room = size_at(record, fix.wrapping_add(13));
    if 4096 < count {
        return None;
    }
    if 1024 < room {
        return None;
    }
    let mut slots = filled_words();
    let mut text = filled_bytes();
    let lent = &mut slots[..count];
    if looked_right(to, record, fix, at, look, lent, &mut text[..room]) {
        Some(34 + 4 * count + room)
    } else {
        None
    }
}

// Every fix, and nothing behind the last.
fn fixes_right<F: Fn(f32, f32, bool, &mut [u32], &mut [u8], &mut [u64; 5]) -> u8>(
    to: Stdout,
    record: &[u8],
    first: usize,
    from: usize,
    look: F,
) -> bool
    requires { F.IsAlwaysCallable look }
{
    let mut fix = first;
    let mut at = from;
    for _ in 0..size_at(record, 21) {
        let Some(size) = fix_right(to, record, fix, at, &look) else {
            return false;
        };
        at = at.wrapping_add(size);
        fix = fix.wrapping_add(17);
    }
    at == record.len()
}

// All fixes by the function that holds the words against the file at each call, and again by that which does not, where the words go with the file.
fn lookups_right(
    to: Stdout,
    record: &[u8],
    first: usize,
    from: usize,
    file: &[u8],
    index: &[u32],
) -> bool {
    let compared = fixes_right(
        to,
        record,
        first,
        from,
        |lat: f32, lon: f32, asked: bool, slots: &mut [u32], text: &mut [u8], words: &mut [u64; 5]| {
            uskelzar_lookup_indexed(file, index, lat, lon, asked, slots, text, words)
        },
    );
    if !compared {
        return false;
    }
    let mut words = unspoken();
    if uskelzar_index_tied(file, index, &mut words) != 0 {
        return true;
    }
    fixes_right(
        to,
        record,
        first,
        from,
        |lat: f32, lon: f32, asked: bool, slots: &mut [u32], text: &mut [u8], words: &mut [u64; 5]| {
            uskelzar_lookup_through(file, index, lat, lon, asked, slots, text, words)
        },
    )
}

// Through so many of the words as are lent.
fn lent_right(
    to: Stdout,
    record: &[u8],
    first: usize,
    from: usize,
    file: &[u8],
    index: &[u32],
) -> bool {
    match index.get(..size_at(record, 9)) {
        Some(lent) => lookups_right(to, record, first, from, file, lent),
        None => false,
    }
}

// Builds, and looks up in the other file.
fn run_index(
    to: Stdout,
    record: &[u8],
    first: usize,
    file: &[u8],
    other: &[u8],
    index: &mut [u32],
) -> bool {
    let fixes = times_17(size_at(record, 21));
    let from = first.wrapping_add(fixes);
    if !built_right(record, from, file, index) {
        return false;
    }
    lent_right(to, record, first, from.wrapping_add(26), other, index)
}

// In as many words as the record says.
fn run_sized(to: Stdout, record: &[u8], first: usize, file: &[u8], other: &[u8]) -> bool {
    let room = size_at(record, 5);
    if 8448 < room {
        return false;
    }
    let mut index = filled_index();
    run_index(to, record, first, file, other, &mut index[..room])
}

// Whether building and every lookup came out as recorded; what is too large for the buffers, or of another length than its parts have, did not.
pub fn index_right(to: Stdout, record: &[u8]) -> bool {
    let size = size_at(record, 13);
    let asked = size_at(record, 17);
    if 65536 < size {
        return false;
    }
    if 65536 < asked {
        return false;
    }
    let middle = 25 + size;
    let first = middle + asked;
    if record.len() < first {
        return false;
    }
    run_sized(
        to,
        record,
        first,
        &record[25..middle],
        &record[middle..first],
    )
}
