// A reply in the words of a record.
use crate::record::{byte_at, long_at};
use line::output::{say, say_number};
use std::io::Stdout;

// Stays numbers: they are words of a record, which may be any.
#[derive(Clone, Copy, PartialEq, Eq)]
pub struct Reply {
    // 0 answered, 1 refused, 2 failed or none.
    pub outcome: u8,
    pub number: u64,
    pub cause: u64,
    pub detail: u64,
    pub words: [u64; 5],
}

// Stays apart: one value for each outcome, which the name says.
pub fn answered(words: [u64; 5]) -> Reply {
    Reply {
        outcome: 0,
        number: 0,
        cause: 0,
        detail: 0,
        words,
    }
}

// The words of a refusal are its cause and its detail, and three that must be 0.
pub fn refused(number: u8, words: [u64; 5]) -> Reply {
    Reply {
        outcome: 1,
        number: u64::from(number),
        cause: words[0],
        detail: words[1],
        words: [words[2], words[3], words[4], 0, 0],
    }
}

// A string that can't be read, or a simple lookup with no description.
// Stays apart: one value for each outcome, which the name says.
pub fn answered_none(words: [u64; 5]) -> Reply {
    Reply {
        outcome: 2,
        number: 0,
        cause: 0,
        detail: 0,
        words,
    }
}

// Words that no reply has, lent to a call.
pub fn unspoken() -> [u64; 5] {
    [0xAAAA_AAAA_AAAA_AAAA; 5]
}

// What a call of the exported form said.
pub fn spoken(number: u8, words: [u64; 5]) -> Reply {
    if number == 0 {
        return answered(words);
    }
    refused(number, words)
}

// The same of a simple lookup, whose third word says whether there is a description; a record has it as the outcome.
pub fn described(number: u8, words: [u64; 5]) -> Reply {
    if number != 0 {
        return refused(number, words);
    }
    if words[2] == 1 {
        return answered([words[0], words[1], words[3], words[4], 0]);
    }
    answered_none([words[0], words[1], words[3], words[4], words[2]])
}

// The same of local time, whose first word says whether it is known, and on which scale. Recorded are offset, daylight flag and length; a file's own scale has a correction too.
pub fn known(number: u8, words: [u64; 5]) -> Reply {
    if number != 0 {
        return refused(number, words);
    }
    if words[0] == 1 {
        return answered([words[1], words[2], words[3], words[4], 0]);
    }
    if words[0] == 2 {
        return answered([words[1], words[2], words[3], 0, 0]);
    }
    answered_none([words[1], words[2], words[3], words[4], words[0]])
}

fn next_long(record: &[u8], at: usize, k: usize) -> u64 {
    long_at(record, at.wrapping_add(k))
}

// The reply that 34 bytes of a record hold, from a place on.
pub fn recorded_at(record: &[u8], at: usize) -> Reply {
    Reply {
        outcome: byte_at(record, at),
        number: next_long(record, at, 1),
        cause: u64::from(byte_at(record, at.wrapping_add(5))),
        detail: next_long(record, at, 6) | next_long(record, at, 10) << 32,
        words: [
            next_long(record, at, 14),
            next_long(record, at, 18),
            next_long(record, at, 22),
            next_long(record, at, 26),
            next_long(record, at, 30),
        ],
    }
}

pub fn recorded(bytes: &[u8]) -> Reply {
    recorded_at(bytes, 0)
}

pub fn same_reply(a: Reply, b: Reply) -> bool {
    a == b
}

fn print_next(out: Stdout, n: u64) {
    say(out, b" ");
    say_number(out, n);
}

pub fn print_reply(out: Stdout, reply: Reply) {
    print_next(out, u64::from(reply.outcome));
    print_next(out, reply.number);
    print_next(out, reply.cause);
    print_next(out, reply.detail);
    for word in &reply.words {
        print_next(out, *word);
    }
}
