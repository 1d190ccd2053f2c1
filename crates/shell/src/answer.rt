// What is written for a request: the slip's line, or why there is none.
ghost use Rattle.std.specs.Prelude.{◌≡◌, length};
ghost use Rattle.line.specs.Put.{Put};
ghost use Rattle.shell.specs.Answer.{slip_for, reason_line, Rooms, Answers};
ghost use Rattle.numbers.specs.Reply.{refused};

use crate::words::put_words;
use line::put::{put, put_all, put_number};
use numbers::refusal::Refusal;
use slip::slip::slip;

// How many bytes to write, and 1 where the request is not stamped: a number, since `status_of` and its theorems take the greatest.
// Stays a number: Answers and status_of speak of it as the exit status, which is a number.
#[derive(Clone, Copy)]
pub struct Answered {
    pub size: usize,
    pub fault: u64,
}

fn put_reason(out: &mut [u8], why: Refusal) -> usize
    ensures { Put out.old 0 (reason_line why) out.new result }
{
    let said = put_all(out, 0, b"not stamped:");
    let number = put_number(out, said, why.number as u64);
    let cause = put_number(out, number, why.cause as u64);
    let detail = put_number(out, cause, why.detail);
    let blank = put(out, detail, b' ');
    let words = put_words(out, blank, why.number);
    put(out, words, b'\n')
}

// Nothing is said of another sentence, so that a receiver can be piped in.
fn refuse(hits: &[u32], text: &[u8], out: &mut [u8], why: Refusal) -> Answered
    requires { Rooms hits.now text.now out.old }
    ensures { Answers (refused why) hits.now text.now out.new result }
{
    if why.number == 83 {
        return Answered { size: 0, fault: 0 };
    }
    let size = put_reason(out, why);
    Answered { size, fault: 1 }
}

// The request's line, with its end.
// Stays parameters: docs/PROMISES.md names it, so it takes what it took.
pub(crate) fn answer(
    request: &[u8],
    map: &[u8],
    zones: &[u8],
    hits: &mut [u32],
    text: &mut [u8],
    out: &mut [u8],
) -> Answered
    requires { Rooms hits.old text.old out.old }
    ensures { Answers (slip_for request.now map.now zones.now) hits.new text.new out.new result }
{
    let atlas = [0u32; 0];
    let stamped = match slip(request, map, &atlas, zones, hits, text, &mut out[..4096]) {
        Ok(stamped) => stamped,
        Err(why) => return refuse(hits, text, out, why),
    };
    let length = stamped.length;
    out[length] = b'\n';
    Answered {
        size: length + 1,
        fault: 0,
    }
}
