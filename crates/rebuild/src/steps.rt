// The steps of a record, one after the other.
use crate::desk::{Desk, Notes};
use crate::offer::{add_at, offered_at, replace_at, unread, values_at};
use recorded::record::{byte_at, size_at};
use recorded::reply::{Reply, print_reply, recorded_at, same_reply};
use std::io::Stdout;

const ADD: u8 = 1;

const DROP: u8 = 2;

const REPLACE: u8 = 3;

const CLEAR: u8 = 4;

// Where a step's reply stands.
fn reply_at(record: &[u8], at: usize) -> usize {
    match byte_at(record, at) {
        ADD => {
            let offer = offered_at(record, at);
            values_at(offer, at).wrapping_add(offer.bytes)
        }
        REPLACE => {
            let text = size_at(record, at.wrapping_add(9));
            at.wrapping_add(13).wrapping_add(text)
        }
        _ => at.wrapping_add(1),
    }
}

fn run_step(record: &[u8], at: usize, desk: &mut Desk, notes: &mut Notes) -> Reply {
    match byte_at(record, at) {
        ADD => add_at(record, at, desk, notes),
        DROP => desk.drop_last(),
        REPLACE => replace_at(record, at, desk),
        CLEAR => desk.clear(),
        _ => unread(),
    }
}

// Whether a reply is the recorded one, which stands at a place; the other is printed.
pub(crate) fn is_recorded(to: Stdout, got: Reply, record: &[u8], at: usize) -> bool {
    if same_reply(got, recorded_at(record, at)) {
        return true;
    }
    print_reply(to, got);
    false
}

// Where the steps end, with notes that hold anything; none where one came out otherwise.
pub(crate) fn run_steps(to: Stdout, record: &[u8], from: usize, desk: &mut Desk) -> Option<usize> {
    let mut notes = Notes {
        marks: [0xAAAA_AAAA; 1025],
        chains: [0xAAAA_AAAA; 5120],
        groups: [0xAAAA_AAAA; 4136],
        begins: [0xAAAA_AAAA; 40],
    };
    let mut at = from;
    for _ in 0..size_at(record, 24) {
        let reply = reply_at(record, at);
        let got = run_step(record, at, desk, &mut notes);
        if !is_recorded(to, got, record, reply) {
            return None;
        }
        at = reply.wrapping_add(34);
    }
    Some(at)
}
