// The slip. A request: its length, the line, the reply's 34 bytes. A slip of a request, or of a fix and an instant: what is asked, the line (none for a fix), the map,
// the zones, the reply's 34 bytes, the slots, the text, the printed line.
ghost use Rattle.std.specs.Prelude.{◌≡◌, ◌+◌, ◌*◌, ◌≤◌, length};

use crate::calls::filled_words;
use numbers::float::bits::of_bits;
use recorded::record::{byte_at, instant_at, same_bytes, same_words, size_at, word_at};
use recorded::reply::{Reply, answered, recorded, refused, same_reply, spoken, unspoken};
use recorded::verdict::{Verdict, print_wrong};
use std::io::Stdout;
use uskelzar::slips::{uskelzar_request, uskelzar_slip, uskelzar_slip_at};

// What a request means, in a record's words: the instant is two of them, and two that must be 0 are one.
fn meant(number: u8, words: [u64; 5]) -> Reply {
    if number != 0 {
        return refused(number, words);
    }
    let low = words[2] % 0x1_0000_0000;
    let high = words[2] / 0x1_0000_0000;
    answered([words[0], words[1], low, high, words[3] | words[4]])
}

fn run_request(line: &[u8]) -> Reply {
    let mut words = unspoken();
    let number = uskelzar_request(line, &mut words);
    meant(number, words)
}

pub fn judge_request(to: Stdout, record: &[u8]) -> Verdict {
    let size = size_at(record, 5);
    if 65536 < size {
        return Verdict::Skipped;
    }
    let reply = 9 + size;
    if record.len() != reply + 34 {
        return Verdict::Skipped;
    }
    let got = run_request(&record[9..reply]);
    if !same_reply(got, recorded(&record[reply..])) {
        return print_wrong(to, b"reply", record, got);
    }
    Verdict::Right
}

// 23 has a request, any other a fix and an instant. With the places where line, map and zones begin, and where the zones end.
fn run_slip(
    record: &[u8],
    line: usize,
    map: usize,
    zones: usize,
    end: usize,
    slots: &mut [u32],
    text: &mut [u8],
    out: &mut [u8],
) -> Reply
    requires { (line ≤ map) × (map ≤ zones) × (zones ≤ end) × (end ≤ length «record».now) }
{
    let mut words = unspoken();
    let file = &record[map..zones];
    let bundle = &record[zones..end];
    if byte_at(record, 0) == 23 {
        let asked = &record[line..map];
        let number = uskelzar_slip(asked, file, bundle, slots, text, out, &mut words);
        return spoken(number, words);
    }
    let lat = of_bits(word_at(record, 5));
    let lon = of_bits(word_at(record, 9));
    let instant = instant_at(record, 13);
    let number = uskelzar_slip_at(
        lat, lon, instant, file, bundle, slots, text, out, &mut words,
    );
    spoken(number, words)
}

// What was lent, which stands behind the reply.
fn judge_lent(
    to: Stdout,
    record: &[u8],
    got: Reply,
    words: usize,
    slots: &[u32],
    text: &[u8],
    out: &[u8],
) -> Verdict
    requires { words + 4 * length slots.now + length text.now + length out.now ≡ length «record».now }
{
    let bytes = words + 4 * slots.len();
    let printed = bytes + text.len();
    if !same_words(slots, &record[words..bytes]) {
        return print_wrong(to, b"slots", record, got);
    }
    if !same_bytes(text, &record[bytes..printed]) {
        return print_wrong(to, b"text", record, got);
    }
    if !same_bytes(out, &record[printed..]) {
        return print_wrong(to, b"line", record, got);
    }
    Verdict::Right
}

// With the places where line, map, zones and reply begin.
fn judge_at(
    to: Stdout,
    record: &[u8],
    line: usize,
    map: usize,
    zones: usize,
    reply: usize,
    slots: &mut [u32],
    text: &mut [u8],
    out: &mut [u8],
) -> Verdict
    requires { (line ≤ map) × (map ≤ zones) × (zones ≤ reply)
        × (reply + 34 + 4 * length slots.old + length text.old + length out.old ≡ length «record».now) }
{
    let got = run_slip(record, line, map, zones, reply, slots, text, out);
    let words = reply + 34;
    if !same_reply(got, recorded(&record[reply..words])) {
        return print_wrong(to, b"reply", record, got);
    }
    judge_lent(to, record, got, words, slots, text, out)
}

fn filled_bytes() -> [u8; 8192]
    ensures { 8192 ≡ length result }
{
    [0xAA; 8192]
}

// With so many slots, bytes of text and bytes of line lent as the record says from a place on.
fn judge_lending(
    to: Stdout,
    record: &[u8],
    line: usize,
    map: usize,
    zones: usize,
    reply: usize,
    rooms: usize,
) -> Verdict
    requires { (line ≤ map) × (map ≤ zones) × (zones ≤ reply) × (reply ≤ 200000) × (rooms ≤ 21) }
{
    let count = size_at(record, rooms);
    let room = size_at(record, rooms + 4);
    let long = size_at(record, rooms + 8);
    if 4096 < count {
        return Verdict::Skipped;
    }
    if 8192 < room {
        return Verdict::Skipped;
    }
    if 8192 < long {
        return Verdict::Skipped;
    }
    if record.len() != reply + 34 + 4 * count + room + long {
        return Verdict::Skipped;
    }
    let mut slots = filled_words();
    let mut text = filled_bytes();
    let mut out = filled_bytes();
    judge_at(
        to,
        record,
        line,
        map,
        zones,
        reply,
        &mut slots[..count],
        &mut text[..room],
        &mut out[..long],
    )
}

// With parts of these lengths from a place on.
fn judge_parts(
    to: Stdout,
    record: &[u8],
    at: usize,
    line: usize,
    map: usize,
    zones: usize,
    rooms: usize,
) -> Verdict
    requires { (at ≤ 41) × (rooms ≤ 21) }
{
    if 65536 < line {
        return Verdict::Skipped;
    }
    if 65536 < map {
        return Verdict::Skipped;
    }
    if 65536 < zones {
        return Verdict::Skipped;
    }
    let second = at + line;
    let third = second + map;
    judge_lending(to, record, at, second, third, third + zones, rooms)
}

pub fn judge_slip(to: Stdout, record: &[u8]) -> Verdict {
    let line = size_at(record, 17);
    let map = size_at(record, 21);
    let zones = size_at(record, 25);
    judge_parts(to, record, 29, line, map, zones, 5)
}

pub fn judge_slip_at(to: Stdout, record: &[u8]) -> Verdict {
    let map = size_at(record, 33);
    let zones = size_at(record, 37);
    judge_parts(to, record, 41, 0, map, zones, 21)
}
