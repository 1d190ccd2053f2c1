// One recorded case: a call on lent buffers that are filled with AA, and what came of it.
ghost use Rattle.std.specs.Prelude.{◌≡◌, ◌+◌, ◌*◌, ◌≤◌, length};

use crate::calls::run;
use crate::indexed::index_right;
use crate::many::{recorded_many, run_many};
use crate::salvaged::run_salvage;
use crate::slips::{judge_request, judge_slip, judge_slip_at};
use crate::write::run_write;
use crate::yards::{Asked, run_build, texts_at};
use recorded::record::{byte_at, same_bytes, same_words, size_at};
use recorded::reply::{Reply, recorded, same_reply};
use recorded::verdict::{Verdict, judged, print_wrong};
use std::io::Stdout;

fn filled_slots() -> [u32; 4096]
    ensures { 4096 ≡ length result }
{
    [0xAAAA_AAAA; 4096]
}

fn filled_text() -> [u8; 16384]
    ensures { 16384 ≡ length result }
{
    [0xAA; 16384]
}

// A record on a file: 26 bytes of what is asked, the file, the reply's 34 bytes, the slots, the text.
fn run_case(to: Stdout, record: &[u8], reply: usize, slots: &mut [u32], text: &mut [u8]) -> Verdict
    requires { (26 ≤ reply) × (reply + 34 + 4 * length slots.old + length text.old ≡ length «record».now) }
{
    let got = run(record, &record[26..reply], slots, text);
    let words = reply + 34;
    let bytes = words + 4 * slots.len();
    if !same_reply(got, recorded(&record[reply..words])) {
        return print_wrong(to, b"reply", record, got);
    }
    if !same_words(slots, &record[words..bytes]) {
        return print_wrong(to, b"slots", record, got);
    }
    if !same_bytes(text, &record[bytes..]) {
        return print_wrong(to, b"text", record, got);
    }
    Verdict::Right
}

fn judge_file(to: Stdout, record: &[u8]) -> Verdict {
    let count = size_at(record, 14);
    let room = size_at(record, 18);
    let size = size_at(record, 22);
    if 4096 < count {
        return Verdict::Skipped;
    }
    if 16384 < room {
        return Verdict::Skipped;
    }
    if 65536 < size {
        return Verdict::Skipped;
    }
    if record.len() != 60 + size + 4 * count + room {
        return Verdict::Skipped;
    }
    let mut slots = filled_slots();
    let mut text = filled_text();
    run_case(
        to,
        record,
        26 + size,
        &mut slots[..count],
        &mut text[..room],
    )
}

// A record of the writer: 26 bytes of sizes, what is asked, the reply's 34 bytes, the output.
fn run_written(
    to: Stdout,
    record: &[u8],
    lats: usize,
    lons: usize,
    words: usize,
    earlier: usize,
    reply: usize,
    out: &mut [u8],
) -> Verdict
    requires { (lats ≤ 1024) × (lons ≤ 1024) × (words ≤ 160) × (earlier ≤ reply) × (reply + 34 + length out.old ≡ length «record».now) }
{
    let got = run_write(
        record,
        byte_at(record, 5),
        lats,
        lons,
        words,
        &record[earlier..reply],
        out,
    );
    let bytes = reply + 34;
    if !same_reply(got, recorded(&record[reply..bytes])) {
        return print_wrong(to, b"reply", record, got);
    }
    if !same_bytes(out, &record[bytes..]) {
        return print_wrong(to, b"output", record, got);
    }
    Verdict::Right
}

fn judge_write(to: Stdout, record: &[u8]) -> Verdict {
    let lats = size_at(record, 6);
    let lons = size_at(record, 10);
    let pieces = size_at(record, 14);
    let size = size_at(record, 18);
    let room = size_at(record, 22);
    if 1024 < lats {
        return Verdict::Skipped;
    }
    if 1024 < lons {
        return Verdict::Skipped;
    }
    if 32 < pieces {
        return Verdict::Skipped;
    }
    if 65536 < size {
        return Verdict::Skipped;
    }
    if 16384 < room {
        return Verdict::Skipped;
    }
    let words = 5 * pieces;
    let earlier = 26 + 4 * lats + 4 * lons + 4 * words;
    let reply = earlier + size;
    if record.len() != reply + 34 + room {
        return Verdict::Skipped;
    }
    let mut out = filled_text();
    run_written(
        to,
        record,
        lats,
        lons,
        words,
        earlier,
        reply,
        &mut out[..room],
    )
}

fn filled_answers() -> [u32; 12291]
    ensures { 12291 ≡ length result }
{
    [0xAAAA_AAAA; 12291]
}

// The three lists, which stand behind the reply.
fn judge_lists(
    to: Stdout,
    record: &[u8],
    got: Reply,
    words: usize,
    slots: &[u32],
    text: &[u8],
    answers: &[u32],
) -> Verdict
    requires { words + 4 * length slots.now + 4 * length answers.now + length text.now ≡ length «record».now }
{
    let told = words + 4 * slots.len();
    let bytes = told + 4 * answers.len();
    if !same_words(slots, &record[words..told]) {
        return print_wrong(to, b"slots", record, got);
    }
    if !same_words(answers, &record[told..bytes]) {
        return print_wrong(to, b"answers", record, got);
    }
    if !same_bytes(text, &record[bytes..]) {
        return print_wrong(to, b"text", record, got);
    }
    Verdict::Right
}

// A record of many fixes, whose file ends where its reply begins.
fn run_fixes(
    to: Stdout,
    record: &[u8],
    lats: usize,
    lons: usize,
    reply: usize,
    slots: &mut [u32],
    text: &mut [u8],
    answers: &mut [u32],
) -> Verdict
    requires { (lats ≤ 4097) × (lons ≤ 4097) × (30 + 4 * lats + 4 * lons ≤ reply)
        × (reply + 30 + 4 * length slots.old + 4 * length answers.old + length text.old ≡ length «record».now) }
{
    let file = 30 + 4 * lats + 4 * lons;
    let got = run_many(
        record,
        lats,
        lons,
        &record[file..reply],
        slots,
        text,
        answers,
    );
    let words = reply + 30;
    if !same_reply(got, recorded_many(&record[reply..words])) {
        return print_wrong(to, b"reply", record, got);
    }
    judge_lists(to, record, got, words, slots, text, answers)
}

// Lends filled lists of these sizes to a record of many fixes.
fn lend_fixes(
    to: Stdout,
    record: &[u8],
    lats: usize,
    lons: usize,
    reply: usize,
    count: usize,
    room: usize,
    third: usize,
) -> Verdict
    requires { (lats ≤ 4097) × (lons ≤ 4097) × (30 + 4 * lats + 4 * lons ≤ reply) × (count ≤ 4096) × (room ≤ 16384) × (third ≤ 12291)
        × (reply + 30 + 4 * count + 4 * third + room ≡ length «record».now) }
{
    let mut slots = filled_slots();
    let mut text = filled_text();
    let mut answers = filled_answers();
    run_fixes(
        to,
        record,
        lats,
        lons,
        reply,
        &mut slots[..count],
        &mut text[..room],
        &mut answers[..third],
    )
}

fn judge_many(to: Stdout, record: &[u8]) -> Verdict {
    let lats = size_at(record, 6);
    let lons = size_at(record, 10);
    let count = size_at(record, 14);
    let room = size_at(record, 18);
    let third = size_at(record, 22);
    let size = size_at(record, 26);
    if 4097 < lats {
        return Verdict::Skipped;
    }
    if 4097 < lons {
        return Verdict::Skipped;
    }
    if 4096 < count {
        return Verdict::Skipped;
    }
    if 16384 < room {
        return Verdict::Skipped;
    }
    if 12291 < third {
        return Verdict::Skipped;
    }
    if 65536 < size {
        return Verdict::Skipped;
    }
    let reply = 30 + 4 * lats + 4 * lons + size;
    if record.len() != reply + 30 + 4 * count + 4 * third + room {
        return Verdict::Skipped;
    }
    lend_fixes(to, record, lats, lons, reply, count, room, third)
}

// A record of salvage: 17 bytes of sizes, the file, the reply's 34 bytes, the list, the output.
fn run_salvaged(
    to: Stdout,
    record: &[u8],
    reply: usize,
    list: &mut [u32],
    out: &mut [u8],
) -> Verdict
    requires { (17 ≤ reply) × (reply + 34 + 4 * length list.old + length out.old ≡ length «record».now) }
{
    let got = run_salvage(&record[17..reply], list, out);
    let words = reply + 34;
    let bytes = words + 4 * list.len();
    if !same_reply(got, recorded(&record[reply..words])) {
        return print_wrong(to, b"reply", record, got);
    }
    if !same_words(list, &record[words..bytes]) {
        return print_wrong(to, b"list", record, got);
    }
    if !same_bytes(out, &record[bytes..]) {
        return print_wrong(to, b"output", record, got);
    }
    Verdict::Right
}

fn filled_file() -> [u8; 32768]
    ensures { 32768 ≡ length result }
{
    [0xAA; 32768]
}

// A record of a build, whose texts end where its reply begins.
fn run_built(
    to: Stdout,
    record: &[u8],
    asked: Asked,
    texts: usize,
    reply: usize,
    out: &mut [u8],
) -> Verdict
    requires { (asked.yards ≤ 160) × (asked.lats ≤ 1024) × (asked.lons ≤ 1024) × (asked.pieces ≤ 160) × (asked.texts ≤ 1024) × (texts ≤ reply)
        × (reply + 34 + length out.old ≡ length «record».now) }
{
    let got = run_build(record, asked, &record[texts..reply], out);
    let bytes = reply + 34;
    if !same_reply(got, recorded(&record[reply..bytes])) {
        return print_wrong(to, b"reply", record, got);
    }
    if !same_bytes(out, &record[bytes..]) {
        return print_wrong(to, b"output", record, got);
    }
    Verdict::Right
}

fn judge_salvage(to: Stdout, record: &[u8]) -> Verdict {
    let count = size_at(record, 5);
    let room = size_at(record, 9);
    let size = size_at(record, 13);
    if 4096 < count {
        return Verdict::Skipped;
    }
    if 16384 < room {
        return Verdict::Skipped;
    }
    if 65536 < size {
        return Verdict::Skipped;
    }
    if record.len() != 51 + size + 4 * count + room {
        return Verdict::Skipped;
    }
    let mut list = filled_slots();
    let mut out = filled_text();
    run_salvaged(to, record, 17 + size, &mut list[..count], &mut out[..room])
}

// A record of a build that asks for no more than there is room for: `size` bytes of texts, `room` of output.
fn judge_asked(to: Stdout, record: &[u8], asked: Asked, size: usize, room: usize) -> Verdict
    requires { (asked.yards ≤ 160) × (asked.lats ≤ 1024) × (asked.lons ≤ 1024) × (asked.pieces ≤ 160) × (asked.texts ≤ 1024) × (size ≤ 32768) × (room ≤ 32768) }
{
    let bytes = texts_at(asked);
    let reply = bytes + size;
    if record.len() != reply + 34 + room {
        return Verdict::Skipped;
    }
    let mut out = filled_file();
    run_built(to, record, asked, bytes, reply, &mut out[..room])
}

fn judge_build(to: Stdout, record: &[u8]) -> Verdict {
    let yards = size_at(record, 12);
    let lats = size_at(record, 16);
    let lons = size_at(record, 20);
    let pieces = size_at(record, 24);
    let texts = size_at(record, 28);
    let size = size_at(record, 32);
    let room = size_at(record, 36);
    if 40 < yards {
        return Verdict::Skipped;
    }
    if 1024 < lats {
        return Verdict::Skipped;
    }
    if 1024 < lons {
        return Verdict::Skipped;
    }
    if 32 < pieces {
        return Verdict::Skipped;
    }
    if 1024 < texts {
        return Verdict::Skipped;
    }
    if 32768 < size {
        return Verdict::Skipped;
    }
    if 32768 < room {
        return Verdict::Skipped;
    }
    let asked = Asked {
        yards: 4 * yards,
        lats,
        lons,
        pieces: 5 * pieces,
        texts,
    };
    judge_asked(to, record, asked, size, room)
}

pub fn judge(to: Stdout, record: &[u8]) -> Verdict {
    match byte_at(record, 0) {
        13 | 18 => judged(to, index_right(to, record), record),
        1 | 2 | 3 | 5 | 6 | 7 | 8 | 14 | 15 | 16 | 20 | 21 => judge_file(to, record),
        4 => judge_write(to, record),
        9 | 17 => judge_many(to, record),
        12 => judge_salvage(to, record),
        10 => judge_build(to, record),
        22 => judge_request(to, record),
        23 => judge_slip(to, record),
        24 => judge_slip_at(to, record),
        _ => Verdict::Skipped,
    }
}
