// Compares what the library answers with recorded cases, a line each, from standard input. Prints a line that comes out
// wrong, and for each kind of case how many were compared and how many were wrong.
// Stays, point 6: one room, and a count for each kind of line, of a known size; a Vec could fail.
#![tactic(auto)]

mod borders;
mod leaf;
mod text;

ghost use Rattle.std.specs.Prelude.{◌≤◌, length};

use line::input::read_full;
use line::output::{say, say_number};
use std::io::{Stdin, Stdout};
use text::word;

// A kind is a place in the list of names. A line of no such kind is wrong.
const KINDS: usize = 13;

fn kind_of(names: &[u8], line: &[u8]) -> usize {
    for kind in 0..KINDS {
        if word(names, kind) == word(line, 0) {
            return kind;
        }
    }
    KINDS
}

// Stays a switch: a match from a number to a check is the plain form.
fn is_right(kind: usize, line: &[u8]) -> bool {
    match kind {
        0 => leaf::forward(line),
        1 => leaf::backward(line),
        2 => leaf::signed(line),
        3 => leaf::point(line),
        4 => leaf::i32_to_f32(line),
        5 => leaf::u64_to_f32(line),
        6 => leaf::f32_to_i32(line),
        7 => leaf::f32_to_i64(line),
        8 => leaf::sqrt(line),
        9 => leaf::fixed(line),
        10 => leaf::safezone(line),
        11 => borders::border(line),
        12 => leaf::numeral(line),
        _ => false,
    }
}

fn count(tally: &mut [u64], which: usize) {
    if which < tally.len() {
        tally[which] = tally[which].wrapping_add(1);
    }
}

fn counted(tally: &[u64], which: usize) -> u64 {
    if which < tally.len() { tally[which] } else { 0 }
}

fn run_line(out: Stdout, names: &[u8], line: &[u8], compared: &mut [u64], wrong: &mut [u64]) {
    let kind = kind_of(names, line);
    count(compared, kind);
    if is_right(kind, line) {
        return;
    }
    count(wrong, kind);
    say(out, b"wrong: ");
    say(out, line);
    say(out, b"\n");
}

fn line_end(text: &[u8], start: usize) -> usize
    requires { start ≤ length text.now }
    ensures behind { start ≤ result }
    ensures within { result ≤ length text.now }
{
    for i in start..text.len() {
        if text[i] == b'\n' {
            return i;
        }
    }
    text.len()
}

// Stays a loop: each line begins behind the end of the one before it.
fn run_all(out: Stdout, names: &[u8], text: &[u8], compared: &mut [u64], wrong: &mut [u64]) {
    let mut at = 0;
    while at < text.len() {
        let end = line_end(text, at);
        run_line(out, names, &text[at..end], compared, wrong);
        at = end + 1;
    }
}

fn report(out: Stdout, names: &[u8], compared: &[u64], wrong: &[u64]) {
    for kind in 0..KINDS + 1 {
        say(out, word(names, kind));
        say(out, b" ");
        say_number(out, counted(compared, kind));
        say(out, b" compared, ");
        say_number(out, counted(wrong, kind));
        say(out, b" wrong\n");
    }
}

// Lines that there is no room for are not compared: that is said.
fn report_rest(input: &mut Stdin, out: Stdout) {
    let mut next = [0u8; 1];
    if 0 < read_full(input, &mut next) {
        say(out, b"cut: more than 131072 bytes of input\n");
    }
}

fn main(rt: HostRuntime) {
    let names =
        b"varint backward signed point i32_to_f32 u64_to_f32 f32_to_i32 f32_to_i64 sqrt fixed safezone border numeral unknown";
    let mut input = rt.stdin();
    let out = rt.stdout();
    let mut space = [0u8; 131072];
    let size = read_full(&mut input, &mut space);
    let mut compared = [0u64; 14];
    let mut wrong = [0u64; 14];
    run_all(out, names, &space[..size], &mut compared, &mut wrong);
    report(out, names, &compared, &wrong);
    report_rest(&mut input, out);
}
