// Opening a file: what its header says, and in a lent text its names and its notice.
// Stays, point 2: one function with a flag, under the two names that C calls.
// Stays, point 7: a file is read plainly or strictly as C asks; the definitions take a Bool, a const parameter would compile it twice.
ghost use Rattle.std.specs.Prelude.{◌≡◌, length, ◌<◌};
ghost use Rattle.numbers.specs.Lists.{zeros};
ghost use Rattle.header.specs.{Opening.{Filled, replied, opened_by, opened_of, opened_strictly}, Header.{texts_of}};

use crate::field::{put_entry, zero};
use crate::header::{head_by, read_header_text};
use numbers::fault::Fault;
use numbers::refusal::Refusal;

// Stays a number: the kind is a word of the reply that C gets.
#[derive(Clone, Copy)]
pub struct Opening {
    pub kind: u8,
    pub version: u8,
    pub precision: u8,
    pub count: u8,
    pub used: usize,
}

// The names and the notice, one after another, in a text that is zero, of a file whose header is whole.
fn write_texts(text: &mut [u8], file: &[u8], strict: bool, names: usize) -> Option<usize>
    requires { (text.old ≡ zeros (length text.old)) × (names < 256) }
    ensures { Filled (texts_of strict file.now names) (length text.old) result text.new }
{
    let mut place = 7;
    let mut at = 0;
    for index in 0..names + 1 {
        let Ok(string) = read_header_text(file, strict, names, index, place) else {
            return None;
        };
        let size = string.size;
        let start = string.start;
        if text.len() - at < size + 2 {
            return None;
        }
        put_entry(&mut text[at..], &file[start..start + size]);
        at += size + 2;
        place = string.next;
    }
    Some(at)
}

// Type, version, precision and field count, with the names and the notice in the text; on a refusal the text is zero.
fn open_by(file: &[u8], strict: bool, text: &mut [u8]) -> Result<Opening, Refusal>
    ensures { replied result text.new ≡ opened_by strict file.now (length text.old) }
{
    zero(text);
    let head = head_by(file, strict)?;
    let preamble = head.preamble;
    let count = preamble.count;
    let Some(used) = write_texts(text, file, strict, count as usize) else {
        zero(text);
        return Err(Fault::TextFull.alone());
    };
    Ok(Opening {
        kind: preamble.kind,
        version: preamble.version,
        precision: preamble.precision,
        count,
        used,
    })
}

pub fn open(file: &[u8], text: &mut [u8]) -> Result<Opening, Refusal>
    ensures { replied result text.new ≡ opened_of file.now (length text.old) }
{
    open_by(file, false, text)
}

// The same, but a number that the file's end cuts is refused: 31.
pub fn open_strict(file: &[u8], text: &mut [u8]) -> Result<Opening, Refusal>
    ensures { replied result text.new ≡ opened_strictly file.now (length text.old) }
{
    open_by(file, true, text)
}
