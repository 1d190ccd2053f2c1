// Document 01's program: a location and a file on standard input, the matches and their fields on standard output.
// Stays, point 5: `hits` and `text` are the two lists that a lookup fills, and it takes them apart.
#![tactic(auto)]

mod answer;
mod lines;

ghost use Rattle.std.specs.Prelude.{◌≡◌, ◌*◌, length};
ghost use Rattle.table.specs.Hits.{width};
ghost use Rattle.zone.specs.Printed.{Printed};

use answer::answer;
use line::bytes::byte_at;
use line::input::read_full;
use line::output::say;
use lines::{put_refusal, put_zones};
use std::io::Stdout;
use table::hits::WIDTH;

// One byte more than is taken, so that a longer input is seen.
fn input_space() -> [u8; 65537]
    ensures { 65537 ≡ length result }
{
    [0; 65537]
}

// Room for 1,024 hits.
const HIT_WORDS: usize = 1024 * WIDTH;

fn hit_space() -> [u32; HIT_WORDS]
    ensures { 1024 * width ≡ length result }
{
    [0; HIT_WORDS]
}

fn text_space() -> [u8; 16384]
    ensures { 16384 ≡ length result }
{
    [0; 16384]
}

// More than the lines of 1,024 matches (41 bytes each) and of 16,384 bytes of fields (10 for each three at most) can take.
fn line_space() -> [u8; 131072]
    ensures { 131072 ≡ length result }
{
    [0; 131072]
}

// The lines for an input, as many of their bytes as fit, and how many that are.
fn zone(input: &[u8], hits: &mut [u32], text: &mut [u8], out: &mut [u8]) -> usize
    ensures { Printed input.now (length hits.old) (length text.old) out.old
        hits.new text.new out.new result }
{
    match answer(input, hits, text) {
        Ok(zones) => put_zones(out, zones, byte_at(input, 14), hits, text),
        Err(why) => put_refusal(out, why),
    }
}

// So many bytes, or as many as there are.
// Stays by hand: it writes the bytes that there are, and prints nothing of its own.
fn print_front(to: Stdout, out: &[u8], used: usize) {
    let size = used.min(out.len());
    say(to, &out[..size]);
}

fn main(rt: HostRuntime) {
    let mut input = input_space();
    let mut hits = hit_space();
    let mut text = text_space();
    let mut out = line_space();
    let size = read_full(&mut rt.stdin(), &mut input);
    let used = zone(&input[..size], &mut hits, &mut text, &mut out);
    print_front(rt.stdout(), &out, used);
}
