// The header: what it says of the file, and where the table, the metadata and the data begin.
// Stays, point 7: a file is read plainly or strictly as C asks; the definitions take a Bool, a const parameter would compile it twice.
ghost use Rattle.std.specs.Prelude.{◌≡◌, ◌+◌, ◌^◌, ◌≤◌, ◌<◌, length};
ghost use Rattle.numbers.specs.Fault.{number_of};
ghost use Rattle.header.specs.Text.{text_at};
ghost use Rattle.header.specs.Header.{magic_of, is_kind, preamble_of, blame_of, place_after, size_at, sections_from, sections_at, head_by, head_of};

use crate::text::{Blame, Text, read_text};
use numbers::fault::Fault;
use numbers::limits::LARGEST_FILE;
use numbers::refusal::{Refusal, or_refuse};
use numbers::varint::{Number, read_number};

// The first seven bytes.
// Stays a number: lookups take any header, a forged one too (docs/DECISIONS.md); a type of two kinds would ask more of callers.
#[derive(Clone, Copy)]
pub struct Preamble {
    pub kind: u8,
    pub version: u8,
    pub precision: u8,
    pub count: u8,
}

// Where the three sections begin.
#[derive(Clone, Copy)]
pub struct Sections {
    pub table: u32,
    pub metadata: u32,
    pub data: u32,
}

// How a header was read, whatever it says of the file is read with it: strictly or not.
#[derive(Clone, Copy)]
pub struct Head {
    pub preamble: Preamble,
    pub sections: Sections,
    pub strict: bool,
}

// The first three bytes as one number, the first highest.
fn magic_of(file: &[u8]) -> u64
    requires { 7 ≤ length file.now }
    ensures { result ≡ magic_of file.now }
{
    file[0] as u64 * 0x1_0000 + file[1] as u64 * 0x100 + file[2] as u64
}

fn is_kind(kind: u8) -> bool
    ensures { result ≡ is_kind kind }
{
    kind == b'T' || kind == b'C'
}

// Refusals 1 to 5.
fn read_preamble(file: &[u8]) -> Result<Preamble, Refusal>
    ensures { result ≡ preamble_of file.now }
{
    if LARGEST_FILE < file.len() {
        return Err(Fault::FileTooLarge.alone());
    }
    if file.len() < 7 {
        return Err(Fault::FileTooShort.with(file.len() as u64));
    }
    let magic = magic_of(file);
    if magic != 0x50_4C_42 {
        return Err(Fault::NoMagic.with(magic));
    }
    let kind = file[3];
    if !is_kind(kind) {
        return Err(Fault::UnknownType.with(kind as u64));
    }
    let version = file[4];
    if 2 <= version {
        return Err(Fault::UnknownVersion.with(version as u64));
    }
    let precision = file[5];
    let count = file[6];
    Ok(Preamble {
        kind,
        version,
        precision,
        count,
    })
}

// Whose fault a bad string is: a name's by its index, then the notice's.
fn blame_for(names: usize, index: usize) -> Blame
    ensures { result ≡ blame_of names index }
{
    if index < names {
        Blame {
            number: Fault::BadName as u8,
            detail: index as u64,
        }
    } else {
        Blame {
            number: Fault::BadNotice as u8,
            detail: 0,
        }
    }
}

// A name, or after the names the notice; the metadata offset counts as 0.
pub fn read_header_text(
    file: &[u8],
    strict: bool,
    names: usize,
    index: usize,
    place: usize,
) -> Result<Text, Refusal>
    ensures { result ≡ text_at strict file.now 0 place (blame_of names index) }
{
    read_text(file, strict, 0, place, blame_for(names, index))
}

// The place after the names and the notice.
fn skip_texts(file: &[u8], strict: bool, names: usize) -> Result<usize, Refusal>
    requires { names < 256 }
    ensures { result ≡ place_after strict file.now names }
{
    let mut place = 7;
    for index in 0..names + 1 {
        let text = read_header_text(file, strict, names, index, place)?;
        place = text.next;
    }
    Ok(place)
}

// One of the three sizes; the fault is that it can't be read.
fn read_size(file: &[u8], strict: bool, place: usize, fault: Fault) -> Result<Number, Refusal>
    ensures { result ≡ size_at strict file.now place (number_of fault) }
{
    or_refuse(read_number(file, place, strict), fault.alone())
}

// The sections, counted from the header's end; the last must end with the file.
fn sections_from(
    length: usize,
    end: usize,
    metadata: u32,
    data: u32,
    rest: u64,
) -> Result<Sections, Refusal>
    requires { (end ≤ 2 ^ 30 + 1) × (metadata ≤ «data») }
    ensures { result ≡ sections_from length end metadata «data» rest }
{
    let base = end as u64;
    let start = base + data as u64;
    if 0xFFFF_FFFF < start {
        return Err(Fault::OutOfRange.alone());
    }
    let Some(total) = rest.checked_add(start) else {
        return Err(Fault::OutOfRange.alone());
    };
    if total != length as u64 {
        return Err(Fault::WrongLength.with(total));
    }
    Ok(Sections {
        table: base as u32,
        metadata: (base + metadata as u64) as u32,
        data: start as u32,
    })
}

// Refusals 8 to 11, and 13 for the sums, each where the Rust meets it.
fn read_sections(file: &[u8], strict: bool, place: usize) -> Result<Sections, Refusal>
    requires { length file.now ≤ 2 ^ 30 }
    ensures { result ≡ sections_at strict file.now place }
{
    let first = read_size(file, strict, place, Fault::NoFirstSize)?;
    let second = read_size(file, strict, first.place, Fault::NoSecondSize)?;
    let metadata = first.value % 0x1_0000_0000;
    let data = metadata + second.value % 0x1_0000_0000;
    if 0xFFFF_FFFF < data {
        return Err(Fault::OutOfRange.alone());
    }
    let third = read_size(file, strict, second.place, Fault::NoThirdSize)?;
    sections_from(
        file.len(),
        third.place,
        metadata as u32,
        data as u32,
        third.value,
    )
}

// The whole header, with every refusal of opening but 18.
pub fn head_by(file: &[u8], strict: bool) -> Result<Head, Refusal>
    ensures { result ≡ head_by strict file.now }
{
    let preamble = read_preamble(file)?;
    let place = skip_texts(file, strict, preamble.count as usize)?;
    let sections = read_sections(file, strict, place)?;
    Ok(Head {
        preamble,
        sections,
        strict,
    })
}

// In the plain reading.
pub fn head_of(file: &[u8]) -> Result<Head, Refusal>
    ensures { result ≡ head_of file.now }
{
    head_by(file, false)
}
