// Names and notice, inline.
// Stays, point 5: any header is taken with any file, and of a place nothing is known, so a struct would hold no fact.
ghost use Rattle.std.specs.Prelude.{◌≡◌, take};
ghost use Rattle.salvage.specs.inner.Moves.Laid.{Capped};
ghost use Rattle.salvage.specs.File.{head_texts};
ghost use Rattle.salvage.specs.inner.Rescue.Texts.{short_text, text_bytes, behind, Inlined};

use crate::moves::put::put_number;
use crate::rescue::copy::put_span;
use header::header::Head;
use header::text::{Text, read_string};
use numbers::fault::Fault;
use numbers::limits::LONGEST_TEXT;
use numbers::refusal::{Refusal, or_refuse};

// The text at a place of the header, unless it is too long to stand inline.
// Stays a flag: `strict` is how the file is read, which its header keeps, and the definitions take a Bool.
fn short_text(file: &[u8], strict: bool, place: usize) -> Result<Text, Refusal>
    ensures { result ≡ short_text strict file.now place }
{
    let text = or_refuse(read_string(file, strict, 0, place), Fault::BadText.alone())?;
    if LONGEST_TEXT < text.size {
        return Err(Fault::BadText.alone());
    }
    Ok(text)
}

// Its length and its bytes, as they are stored.
fn put_text(file: &[u8], text: Text, out: &mut [u8], at: usize) -> usize
    ensures { Capped out.old at (text_bytes file.now text) out.new result }
{
    let next = put_number(out, at, text.size as u64);
    put_span(file, text.start, text.size, out, next)
}

// The names, then the notice. The answer: the place behind them.
fn put_texts(file: &[u8], head: Head, out: &mut [u8], at: usize) -> Result<usize, Refusal>
    ensures { Inlined (head_texts file.now head) out.old at out.new result }
{
    let mut place: usize = 7;
    let mut next = at;
    for _ in 0..head.preamble.count as usize + 1 {
        let text = short_text(file, head.strict, place)?;
        next = put_text(file, text, out, next);
        place = text.next;
    }
    Ok(next)
}

// Behind the first seven bytes, which stay.
pub(crate) fn put_head(file: &[u8], head: Head, out: &mut [u8]) -> Result<usize, Refusal>
    ensures { Inlined (behind (take 7 file.now) (head_texts file.now head)) out.old 0 out.new result }
{
    let at = put_span(file, 0, 7, out, 0);
    put_texts(file, head, out, at)
}
