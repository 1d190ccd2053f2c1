// Local time at an instant: the instant and a TZif file on standard input, a line on standard output.
#![tactic(auto)]

mod instant;
mod lines;

ghost use Rattle.std.specs.Prelude.{◌≡◌, ◌≤◌, length};
ghost use Rattle.hour.specs.Hour.{on_scale, Printed};

use instant::instant_of;
use line::input::read_full;
use line::output::say;
use lines::{put_answer, put_refusal};
use localtime::local::{Timed, local_time};
use numbers::fault::Fault;
use tzif::local::Local;
use tzif::refusal::{Refusal, refuse};

// One byte more than is taken, so that a longer input is seen.
fn input_space() -> [u8; 65537]
    ensures { 65537 ≡ length result }
{
    [0; 65537]
}

// For an abbreviation; a longer one is refusal 18.
fn text_space() -> [u8; 256]
    ensures { 256 ≡ length result }
{
    [0; 256]
}

fn line_space() -> [u8; 512]
    ensures { 512 ≡ length result }
{
    [0; 512]
}

// What may be shown: a file that reads the instant on its own scale is refused.
fn on_scale(timed: Timed) -> Result<Option<Local>, Refusal>
    ensures { result ≡ on_scale timed.scale.kind timed.time }
{
    if timed.scale.kind == 2 {
        return Err(refuse(Fault::LeapSeconds, 0));
    }
    timed.time
}

// The line for an input, and how many bytes it has.
fn hour(input: &[u8], text: &mut [u8], out: &mut [u8]) -> usize
    requires { (length text.old ≤ 256) × (512 ≤ length out.old) }
    ensures { Printed input.now (length text.old) out.new result }
{
    let size = input.len();
    if 65536 < size {
        return put_refusal(out, refuse(Fault::FileTooLarge, 0));
    }
    if size < 8 {
        return put_refusal(out, refuse(Fault::FileTooShort, size));
    }
    let instant = instant_of(input);
    let timed = local_time(&input[8..], instant, text);
    let answer = on_scale(timed);
    put_answer(out, instant, answer, text)
}

fn main(rt: HostRuntime) {
    let mut input = input_space();
    let mut text = text_space();
    let mut out = line_space();
    let size = read_full(&mut rt.stdin(), &mut input);
    let used = hour(&input[..size], &mut text, &mut out);
    say(rt.stdout(), &out[..used]);
}
