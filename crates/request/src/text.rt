// Bytes of a line.
// Stays, point 7: `letters` chooses in one closure here; a closure from each caller reads no plainer.
ghost use Rattle.std.specs.Prelude.{◌≡◌, ◌+◌, ◌≤◌, ◌||◌, eqb, not, position, length, take, drop};
ghost use Rattle.std.specs.List.{list_all, zip};
ghost use Rattle.request.specs.{Text.{every, formed, count, xors, until, unblanked, unended}, Told.{taken, likened}};

fn is_taken(byte: u8, letters: bool) -> bool
    ensures { result ≡ taken letters byte }
{
    byte.is_ascii_digit() || (letters && byte.is_ascii_uppercase())
}

// Every byte is a digit or, where letters are taken, a letter A to Z.
pub(crate) fn every(text: &[u8], letters: bool) -> bool
    ensures { result ≡ every letters text.now }
{
    text.iter().all(|byte| is_taken(*byte, letters))
}

// A byte as a form has it.
fn likened(mark: u8, byte: u8) -> bool
    ensures { result ≡ likened mark byte }
{
    if mark == b'0' {
        byte.is_ascii_digit()
    } else {
        byte == mark
    }
}

// Each byte is as its form's, one beside the other.
fn all_likened(form: &[u8], text: &[u8]) -> bool
    ensures { result ≡ list_all (λ pair. likened pair.0 pair.1) (zip form.now text.now) }
{
    form.iter()
        .zip(text)
        .all(|(mark, byte)| likened(*mark, *byte))
}

// The bytes are those of a form, in which a 0 stands for any digit.
pub(crate) fn formed(form: &[u8], text: &[u8]) -> bool
    ensures { result ≡ formed form.now text.now }
{
    text.len() == form.len() && all_likened(form, text)
}

// How often a byte stands there.
pub(crate) fn count(text: &[u8], byte: u8) -> usize
    ensures { result ≡ count byte text.now }
{
    text.iter().filter(|b| **b == byte).count()
}

// The exclusive or of all bytes.
pub(crate) fn xors(text: &[u8]) -> u8
    ensures { result ≡ xors text.now }
{
    text.iter().fold(0, |sum, byte| sum ^ *byte)
}

// A space or a tab.
// Stays apart: those of equal shape elsewhere ask for other bytes.
fn is_blank(byte: u8) -> bool
    ensures { result ≡ (eqb byte 32 || eqb byte 9) }
{
    byte == b' ' || byte == b'\t'
}

// The place of the first of two bytes.
fn first_of(text: &[u8], a: u8, b: u8) -> Option<usize>
    ensures { result ≡ position (λ byte. eqb byte a || eqb byte b) text.now }
{
    text.iter().position(|byte| *byte == a || *byte == b)
}

// The same from a place on, or the end: callers cut there, so it stays a place.
pub(crate) fn find(text: &[u8], from: usize, a: u8, b: u8) -> usize
    requires { from ≤ length text.now }
    ensures { (result ≡ from + length (until a b (drop from text.now))) × (result ≤ length text.now) }
{
    match first_of(&text[from..], a, b) {
        Some(at) => from + at,
        None => text.len(),
    }
}

// The place of the first byte that is no blank.
fn first_mark(text: &[u8]) -> Option<usize>
    ensures { result ≡ position (λ byte. not (eqb byte 32 || eqb byte 9)) text.now }
{
    text.iter().position(|byte| !is_blank(*byte))
}

// Behind the blanks at a place.
pub(crate) fn skip(text: &[u8], from: usize) -> usize
    requires { from ≤ length text.now }
    ensures { (drop result text.now ≡ unblanked (drop from text.now)) × (result ≤ length text.now) }
{
    match first_mark(&text[from..]) {
        Some(at) => from + at,
        None => text.len(),
    }
}

// The bytes without one, where it is the last of them.
pub(crate) fn without(text: &[u8], byte: u8) -> &[u8]
    ensures { result.now ≡ unended byte text.now }
{
    match text.strip_suffix(&[byte]) {
        Some(rest) => rest,
        None => text,
    }
}
