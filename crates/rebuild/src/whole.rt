// A whole record: begin, the steps, the end.
// Stays, point 6: the output is an array of the most that a record lends; a Vec could fail.
use crate::desk::Desk;
use crate::steps::{is_recorded, run_steps};
use recorded::lists::lengths_at;
use recorded::record::{same_bytes_at, size_at};
use recorded::reply::Reply;
use std::io::Stdout;

// The end's reply, and all of the output; nothing stands behind it.
fn end_right(to: Stdout, record: &[u8], at: usize, desk: &Desk, out: &mut [u8]) -> bool {
    let got = desk.finish(out);
    if !is_recorded(to, got, record, at) {
        return false;
    }
    let from = at.wrapping_add(34);
    if record.len() != from.wrapping_add(out.len()) {
        return false;
    }
    same_bytes_at(out, record, from)
}

// The output cut to what the record lends.
fn end_cut(to: Stdout, record: &[u8], at: usize, desk: &Desk) -> bool {
    let mut out = [0xAA; 32768];
    match out.get_mut(..size_at(record, 20)) {
        Some(lent) => end_right(to, record, at, desk, lent),
        None => false,
    }
}

// From the reply to begin on. A record whose begin is refused has no steps, and the same refusal at its end.
fn run_from(to: Stdout, record: &[u8], got: Reply, at: usize, desk: &mut Desk) -> bool {
    if !is_recorded(to, got, record, at) {
        return false;
    }
    let first = at.wrapping_add(34);
    if got.outcome != 0 {
        return is_recorded(to, got, record, first);
    }
    match run_steps(to, record, first, desk) {
        Some(last) => end_cut(to, record, last, desk),
        None => false,
    }
}

// Whether every reply and the output came out as recorded; what is too large for the lists, or of another length than its parts have, did not.
pub fn draft_right(to: Stdout, record: &[u8]) -> bool {
    let names = size_at(record, 8);
    let size = size_at(record, 12);
    if 1000 < names {
        return false;
    }
    if 32768 < size {
        return false;
    }
    let count = names + 1;
    let from = 28 + 4 * count;
    let reply = from + size;
    if record.len() < reply {
        return false;
    }
    let sizes = lengths_at(record, 28, count);
    let mut desk = Desk {
        state: [0xAAAA_AAAA_AAAA_AAAA; 14],
        boxes: [-1; 160],
        borders: [0xAAAA_AAAA; 40],
        lengths: [0xAAAA_AAAA; 1024],
        texts: [0xAA; 32768],
        bytes: [0xAA; 32768],
    };
    let got = desk.begin(record, &sizes[..count], &record[from..reply]);
    run_from(to, record, got, reply, &mut desk)
}
