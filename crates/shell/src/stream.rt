// Standard input in pieces, and a line on standard output for each request.
ghost use Rattle.std.specs.Prelude.{◌≡◌, ◌≢◌, ◌≤◌, max, length, take, IfOk, IfSome, OnErr, OnOk};
ghost use Rattle.std.specs.Io.KnownBytes.{Appends};
ghost use Rattle.shell.specs.{Answer.{Rooms, hit_words, text_room}, Kept.{most, ended, left}, Requests.{last}};
ghost use Rattle.shell.specs.{Stream.{Served, Ready, Finished}, Written.{lines_of, worst, written, status_of}};

use crate::answer::answer;
use crate::messages::broken;
use crate::turn::take_turn;
use std::io;
use std::io::{Read, Write};

// How many bytes the line so far has, and the exit status so far.
// Stays a number: Served, Finished and status_of speak of the exit status as a number.
#[derive(Clone, Copy)]
pub struct State {
    pub used: usize,
    pub status: u64,
}

// What failed, or an input that did not end in as many pieces as can be counted.
#[derive(Drop)]
pub enum Broken {
    Input(io::Error),
    Output(io::Error),
    Endless,
}

// Writes some lines, whole.
fn put_lines<W: Write>(writer: &mut W, lines: &[u8]) -> Result<(), Broken>
    ensures { OnOk result (Appends (W.contents writer.old) (W.contents writer.new) lines.now) }
{
    match writer.write_all(lines) {
        Ok(()) => Ok(()),
        Err(why) => Err(Broken::Output(why)),
    }
}

// Answers each request that ends in a piece.
// Stays a loop: each turn begins where the one before it ended.
// Stays, points 5 and 6: docs/CHECKS.md names it, so it takes what it took.
fn piece<W: Write>(
    writer: &mut W,
    chunk: &[u8],
    line: &mut [u8],
    used: usize,
    status: u64,
    map: &[u8],
    zones: &[u8],
    hits: &mut [u32],
    text: &mut [u8],
    out: &mut [u8],
) -> Result<State, Broken>
    requires { Ready line.old hits.old text.old out.old used }
    ensures served { IfOk result (λ state. Served chunk.now (take used line.old) status map.now zones.now
        line.new hits.new text.new out.new state) }
    ensures rest { IfOk result (λ state. take state.used line.new ≡ left (take used line.old) chunk.now) }
    ensures faults { IfOk result (λ state. state.status
        ≡ max status (worst map.now zones.now (ended (take used line.old) chunk.now))) }
    ensures lines { OnOk result (Appends (W.contents writer.old) (W.contents writer.new)
        (lines_of map.now zones.now (ended (take used line.old) chunk.now))) }
    ensures broken { OnErr result (Ready line.new hits.new text.new out.new 0) }
{
    let mut at = 0;
    let mut size = used;
    let mut worst = status;
    while at < chunk.len() {
        let turned = take_turn(chunk, at, line, size, map, zones, hits, text, out);
        let length = turned.size;
        put_lines(writer, &out[..length])?;
        worst = worst.max(turned.fault);
        size = turned.used;
        at = turned.next;
    }
    Ok(State {
        used: size,
        status: worst,
    })
}

// At the input's end a line that has begun is a request.
fn finish<W: Write>(
    writer: &mut W,
    request: &[u8],
    status: u64,
    map: &[u8],
    zones: &[u8],
    hits: &mut [u32],
    text: &mut [u8],
    out: &mut [u8],
) -> Result<u64, Broken>
    requires { Rooms hits.old text.old out.old }
    ensures finished { IfOk result (λ answer. Finished request.now status map.now zones.now answer) }
    ensures faults { IfOk result (λ answer. answer ≡ max status (worst map.now zones.now (last request.now))) }
    ensures lines { OnOk result (Appends (W.contents writer.old) (W.contents writer.new)
        (lines_of map.now zones.now (last request.now))) }
    ensures rooms { Rooms hits.new text.new out.new }
{
    if request.len() == 0 {
        return Ok(status);
    }
    let answered = answer(request, map, zones, hits, text, out);
    let length = answered.size;
    put_lines(writer, &out[..length])?;
    Ok(status.max(answered.fault))
}

// A proved loop has to end, and nothing says that an input does: so the pieces are counted up to a number that no run comes to.
// Stays an array: room on the heap is for the two files alone.
fn all<R: Read, W: Write>(
    reader: &mut R,
    writer: &mut W,
    line: &mut [u8],
    map: &[u8],
    zones: &[u8],
    hits: &mut [u32],
    text: &mut [u8],
    out: &mut [u8],
) -> Result<u64, Broken>
    requires { Ready line.old hits.old text.old out.old 0 }
    ensures lines { OnOk result (IfSome (R.remaining reader.old) (λ input.
        Appends (W.contents writer.old) (W.contents writer.new) (written map.now zones.now input))) }
    ensures status { IfOk result (λ status. IfSome (R.remaining reader.old) (λ input.
        status ≡ status_of map.now zones.now input)) }
    ensures ready { Ready line.new hits.new text.new out.new 0 }
{
    let mut chunk = [0u8; 4096];
    let mut used = 0;
    let mut status = 0;
    for _ in 0..u64::MAX {
        let size = match reader.read(&mut chunk) {
            Ok(size) => size,
            Err(why) => return Err(Broken::Input(why)),
        };
        if size == 0 {
            return finish(writer, &line[..used], status, map, zones, hits, text, out);
        }
        let state = piece(
            writer,
            &chunk[..size],
            line,
            used,
            status,
            map,
            zones,
            hits,
            text,
            out,
        )?;
        used = state.used;
        status = state.status;
    }
    Err(Broken::Endless)
}

fn line_space() -> [u8; 258]
    ensures { most ≡ length result }
{
    [0; 258]
}

fn hit_space() -> [u32; 4096]
    ensures { hit_words ≡ length result }
{
    [0; 4096]
}

fn text_space() -> [u8; 16384]
    ensures { text_room ≡ length result }
{
    [0; 16384]
}

fn out_space() -> [u8; 4097]
    ensures { 4097 ≡ length result }
{
    [0; 4097]
}

fn tell(errors: &impl Print, why: &Broken) {
    match why {
        Broken::Input(why) => broken(errors, b"stamp: standard input", why),
        Broken::Output(why) => broken(errors, b"stamp: standard output", why),
        Broken::Endless => {}
    }
}

// The exit status: 0 where every request was stamped, 1 where one was not, 2 where the input or the output failed.
pub fn serve<R: Read, W: Write>(
    errors: &impl Print,
    reader: &mut R,
    writer: &mut W,
    map: &[u8],
    zones: &[u8],
) -> u8
    ensures lines { result ≢ 2 → IfSome (R.remaining reader.old) (λ input.
        Appends (W.contents writer.old) (W.contents writer.new) (written map.now zones.now input)) }
    ensures status { result ≢ 2 → IfSome (R.remaining reader.old) (λ input.
        result ≡ status_of map.now zones.now input) }
    ensures known { result ≤ 2 }
{
    let mut line = line_space();
    let mut hits = hit_space();
    let mut text = text_space();
    let mut out = out_space();
    match all(
        reader, writer, &mut line, map, zones, &mut hits, &mut text, &mut out,
    ) {
        Ok(0) => 0,
        Ok(1) => 1,
        Ok(_) => 2,
        Err(why) => {
            tell(errors, &why);
            2
        }
    }
}
