// How many cases there were of each op, and then in all, wrong and skipped.
use crate::verdict::Verdict;
use line::output::{say, say_number};
use std::io::Stdout;

const ALL: usize = 25;

const WRONG: usize = 26;

const SKIPPED: usize = 27;

fn count(tally: &mut [u64], which: usize) {
    if which < tally.len() {
        tally[which] = tally[which].wrapping_add(1);
    }
}

// Stays apart: one line of std's words.
fn counted(tally: &[u64], which: usize) -> u64 {
    tally.get(which).copied().unwrap_or(0)
}

// One more case of an op; a skipped one is of none.
pub fn note(tally: &mut [u64], op: u8, verdict: Verdict) {
    count(tally, ALL);
    match verdict {
        Verdict::Right => count(tally, op as usize),
        Verdict::Wrong => {
            count(tally, op as usize);
            count(tally, WRONG)
        }
        Verdict::Skipped => count(tally, SKIPPED),
    }
}

pub fn print_op(out: Stdout, tally: &[u64], name: &[u8], op: usize) {
    say(out, name);
    say(out, b" ");
    say_number(out, counted(tally, op));
    say(out, b"\n");
}

// The last line of a program.
pub fn print_end(out: Stdout, tally: &[u64], program: &[u8]) {
    say(out, program);
    say(out, b": ");
    say_number(out, counted(tally, ALL));
    say(out, b" cases, ");
    say_number(out, counted(tally, WRONG));
    say(out, b" wrong, ");
    say_number(out, counted(tally, SKIPPED));
    say(out, b" skipped\n");
}
