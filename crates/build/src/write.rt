// The sections of a file, one after another. What does not fit is counted and left out.
// Stays, point 6: C lends lengths and texts as two lists, and no heap holds strings; writing into a list of no bytes tells a size.
ghost use mathlib.Core.{Path.{◌≡◌}, List.{◌++◌, map}};
ghost use Rattle.std.specs.Prelude.{◌^◌, ◌≤◌, ◌<◌, length};
ghost use Rattle.writer.specs.inner.Stored.{Stored};
ghost use Rattle.builder.specs.{Entries.{table_from, entry_of_word}, File.{head_from, assembled}, Yards.{cut_by}};
ghost use Rattle.numbers.specs.{Lists.{zeros}, Spelling.{varint_of}};
ghost use Rattle.build.specs.inner.Puts.{section_from, Sectioned, Headed};

use crate::metadata::remotes::put_remotes;
use builder::head::{Form, put_head};
use builder::put::{put_bytes, put_varint};
use builder::records::put_records;
use builder::table::put_table;

// Stays a clause: a type for a place below 2^60 would be made and taken apart at each sum.
fn put_sizes(out: &mut [u8], place: usize, table: u64, metadata: u64, bytes: u64) -> usize
    requires { place < 2 ^ 60 }
    ensures { Stored out.old place (varint_of table ++ (varint_of metadata ++ varint_of bytes)) out.new result }
{
    let first = put_varint(out, place, table);
    let second = put_varint(out, first, metadata);
    put_varint(out, second, bytes)
}

// The metadata section: the records by their words, then the texts behind them.
fn put_section(
    out: &mut [u8],
    place: usize,
    records: u32,
    size: u64,
    words: &[u32],
    lengths: &[u32],
    texts: &[u8],
) -> usize
    requires { Sectioned records size words.now lengths.now texts.now × (place < 2 ^ 58) }
    ensures { Stored out.old place (section_from records words.now lengths.now texts.now) out.new result }
{
    let behind = put_records(out, place, records, words, lengths, texts);
    put_remotes(out, behind, words, lengths, texts)
}

// The bytes of the table.
// Stays apart: two lines; another writer writes into no room elsewhere.
pub fn table_size(keys: &[u64], boxes: &[i32], places: &[u32]) -> usize
    requires { length keys.now ≤ 4096 }
    ensures { result ≡ length (table_from 0 0 (map (entry_of_word boxes.now places.now) keys.now)) }
{
    let mut nothing = [0u8; 0];
    put_table(&mut nothing, 0, keys, boxes, places)
}

// The three sections.
fn put_sections(
    out: &mut [u8],
    place: usize,
    keys: &[u64],
    boxes: &[i32],
    places: &[u32],
    records: u32,
    size: u64,
    words: &[u32],
    lengths: &[u32],
    texts: &[u8],
    bytes: &[u8],
) -> usize
    requires { Sectioned records size words.now lengths.now texts.now × (place < 2 ^ 56) × (length keys.now ≤ 4096) × (length bytes.now ≤ 2 ^ 30) }
    ensures { Stored out.old place (table_from 0 0 (map (entry_of_word boxes.now places.now) keys.now)
        ++ (section_from records words.now lengths.now texts.now ++ bytes.now)) out.new result }
{
    let table = put_table(out, place, keys, boxes, places);
    let section = put_section(out, table, records, size, words, lengths, texts);
    put_bytes(out, section, bytes)
}

// The whole file, over zeros. The first lengths and texts are those of the names and the notice.
pub fn write_file(
    form: Form,
    front: &[u32],
    strings: &[u8],
    keys: &[u64],
    boxes: &[i32],
    places: &[u32],
    records: u32,
    size: u64,
    words: &[u32],
    lengths: &[u32],
    texts: &[u8],
    bytes: &[u8],
    out: &mut [u8],
) -> usize
    requires { Headed front.now strings.now × (length keys.now ≤ 4096) × Sectioned records size words.now lengths.now texts.now × (length bytes.now ≤ 2 ^ 30) }
    ensures { Stored (zeros (length out.old)) 0 (assembled (head_from form.kind form.version form.precision form.names (cut_by front.now strings.now))
        (table_from 0 0 (map (entry_of_word boxes.now places.now) keys.now)) (section_from records words.now lengths.now texts.now) bytes.now) out.new result }
{
    out.fill(0);
    let head = put_head(out, form, front, strings);
    let table = table_size(keys, boxes, places);
    let sizes = put_sizes(out, head, table as u64, size, bytes.len() as u64);
    put_sections(
        out, sizes, keys, boxes, places, records, size, words, lengths, texts, bytes,
    )
}
