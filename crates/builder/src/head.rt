// The header up to the sizes of the sections.
// Stays, point 6: C lends lengths and texts as two lists, and no heap holds strings.
ghost use Rattle.std.specs.Prelude.{◌≡◌, ◌+◌, ◌*◌, ◌^◌, ◌≤◌, ◌<◌, length};
ghost use Rattle.writer.specs.inner.Stored.{Stored};
ghost use Rattle.builder.specs.{Yards.{cut_by, sum_of}, File.{head_from}};

use crate::put::put_bytes;
use crate::texts::put_texts;

// What a file is like: its type, version and precision, and how many names there are.
// Stays a number: the kind is any byte that C gives, and the definitions of the file take numbers.
#[derive(Clone, Copy)]
pub struct Form {
    pub kind: u8,
    pub version: u8,
    pub precision: u8,
    pub names: u8,
}

// The lengths are those of the names and of the notice.
pub fn put_head(out: &mut [u8], form: Form, lengths: &[u32], texts: &[u8]) -> usize
    requires { (sum_of lengths.now ≤ length texts.now) × (sum_of lengths.now + 10 * length lengths.now < 2 ^ 59) }
    ensures { Stored out.old 0 (head_from form.kind form.version form.precision form.names (cut_by lengths.now texts.now)) out.new result }
{
    let begin = [
        0x50,
        0x4C,
        0x42,
        form.kind,
        form.version,
        form.precision,
        form.names,
    ];
    let next = put_bytes(out, 0, &begin);
    put_texts(out, next, lengths, texts)
}
