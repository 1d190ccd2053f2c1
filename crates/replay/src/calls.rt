// The calls that a record on a file can ask for, each with its reply in the record's words. What is lent is slots and text.
// Open, both lookups and local time are those that firmware calls.
ghost use Rattle.std.specs.Prelude.{◌≡◌, ◌≤◌, length};

use header::text::read_string;
use header::utf8::is_utf8;
use numbers::float::bits::of_bits;
use recorded::record::{byte_at, instant_at, size_at, word_at};
use recorded::reply::{
    Reply, answered, answered_none, described, known, refused, spoken, unspoken,
};
use tzif::local::{Local, local_time, offset_bits};
use tzif::refusal::Refusal;
use uskelzar::{
    uskelzar_local_time, uskelzar_lookup, uskelzar_lookup_strict, uskelzar_open,
    uskelzar_open_strict, uskelzar_simple_lookup,
};

// A call by its number and the words that it leaves.
fn said<F: FnOnce(&mut [u64; 5]) -> u8>(call: F) -> Reply
    requires { F.IsAlwaysCallable call }
{
    let mut words = unspoken();
    let number = call(&mut words);
    spoken(number, words)
}

// A coordinate of a record.
// Stays apart: one line; what has the same form elsewhere is a side of a tile.
fn coordinate(record: &[u8], at: usize) -> f32 {
    of_bits(word_at(record, at))
}

fn run_simple(record: &[u8], file: &[u8], slots: &mut [u32], text: &mut [u8]) -> Reply {
    let lat = coordinate(record, 5);
    let lon = coordinate(record, 9);
    let mut words = unspoken();
    let number = uskelzar_simple_lookup(file, lat, lon, slots, text, &mut words);
    described(number, words)
}

fn run_either(record: &[u8], file: &[u8], slots: &mut [u32], text: &mut [u8]) -> Reply {
    let lat = coordinate(record, 5);
    let lon = coordinate(record, 9);
    let asked = byte_at(record, 13) != 0;
    match byte_at(record, 0) {
        2 | 14 => said(|words| uskelzar_lookup(file, lat, lon, asked, slots, text, words)),
        8 | 16 => said(|words| uskelzar_lookup_strict(file, lat, lon, asked, slots, text, words)),
        _ => run_simple(record, file, slots, text),
    }
}

// How many words as many hits take with four words each as they take with three; none of so long a list that no record has it.
// Stays by hand: it is no conversion: so many words, counted in another width.
pub fn in_four(size: usize) -> usize
    ensures { result ≤ 5464 }
{
    if size <= 4096 { size / 3 * 4 } else { 0 }
}

pub fn filled_words() -> [u32; 5464]
    ensures { 5464 ≡ length result }
{
    [0xAAAA_AAAA; 5464]
}

// A word of a list; 0 past the end.
// Stays apart: one line of std's words.
fn word_in(words: &[u32], at: usize) -> u32 {
    words.get(at).copied().unwrap_or(0)
}

// The list with three words a hit: the place is left out.
pub fn leave_out(words: &[u32], slots: &mut [u32]) {
    for i in 0..slots.len() {
        slots[i] = word_in(words, i.wrapping_add(i / 3));
    }
}

fn run_without_places(
    record: &[u8],
    file: &[u8],
    words: &mut [u32],
    slots: &mut [u32],
    text: &mut [u8],
) -> Reply {
    let reply = run_either(record, file, words, text);
    leave_out(words, slots);
    reply
}

// Both lookups with three words a hit, as document 01 has them.
fn run_in_three(record: &[u8], file: &[u8], slots: &mut [u32], text: &mut [u8]) -> Reply {
    let size = in_four(slots.len());
    let mut words = filled_words();
    run_without_places(record, file, &mut words[..size], slots, text)
}

// As many bytes as the text has, from a place of the file on, each XOR 0x80.
fn unmask(file: &[u8], start: usize, text: &mut [u8]) {
    for i in 0..text.len() {
        text[i] = byte_at(file, start.wrapping_add(i)) ^ 0x80;
    }
}

// Size and next place, and the bytes in the text.
fn run_string(file: &[u8], metadata: u32, place: usize, text: &mut [u8]) -> Reply {
    match read_string(file, false, metadata, place) {
        Ok(string) => {
            unmask(file, string.start, text);
            answered([string.size as u64, string.next as u64, 0, 0, 0])
        }
        Err(stop) => match stop.refusal() {
            Some(why) => refused(why.number, [0; 5]),
            None => answered_none([0; 5]),
        },
    }
}

// 1 for UTF-8, else 0.
fn run_utf8(file: &[u8]) -> Reply {
    if is_utf8(file) {
        answered([1, 0, 0, 0, 0])
    } else {
        answered([0; 5])
    }
}

// Stays by hand: neither type is this crate's, so there is no `From`.
fn local_of(local: Local) -> Reply {
    let offset = offset_bits(local);
    let daylight = local.daylight as u64;
    let length = local.length as u64;
    answered([offset, daylight, length, 0, 0])
}

// Stays by hand: neither type is this crate's, so there is no `From`.
fn told_local(time: Result<Option<Local>, Refusal>) -> Reply {
    match time {
        Ok(Some(local)) => local_of(local),
        Ok(None) => answered_none([0; 5]),
        Err(why) => refused(why.number, [0, why.detail as u64, 0, 0, 0]),
    }
}

fn run_local(record: &[u8], file: &[u8], text: &mut [u8]) -> Reply {
    let mut words = unspoken();
    let number = uskelzar_local_time(file, instant_at(record, 5), text, &mut words);
    known(number, words)
}

// By the transitions alone.
fn run_listed(record: &[u8], file: &[u8], text: &mut [u8]) -> Reply {
    told_local(local_time(file, instant_at(record, 5), text))
}

// 1 is open, 14 lookup and 15 simple lookup; 2 and 3 are both with three words a hit. 7 is strict opening and 16 strict lookup, 8 with three words a hit. Of this program's own, 5 is a string, with its place where a lookup has the latitude and the metadata offset where it has the
// longitude, and 6 is UTF-8, over bytes that are stored XOR 0x80. 20 is local time, with an instant of eight bytes
// in the place of both, and 21 local time by the transitions alone.
pub fn run(record: &[u8], file: &[u8], slots: &mut [u32], text: &mut [u8]) -> Reply {
    match byte_at(record, 0) {
        1 => said(|words| uskelzar_open(file, text, words)),
        7 => said(|words| uskelzar_open_strict(file, text, words)),
        2 | 3 | 8 => run_in_three(record, file, slots, text),
        14 | 15 | 16 => run_either(record, file, slots, text),
        20 => run_local(record, file, text),
        21 => run_listed(record, file, text),
        5 => run_string(file, word_at(record, 9), size_at(record, 5), text),
        _ => run_utf8(file),
    }
}
