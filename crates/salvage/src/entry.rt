// An entry whose six numbers were read: its border, then its strings.
// Stays, point 5: any header is taken with any file, so a struct of `file, head` would hold no fact.
ghost use Rattle.std.specs.Prelude.{◌≡◌, ◌+◌, ◌%◌, ◌^◌};
ghost use Rattle.border.specs.Encoding.{version_of, encoded_by};
ghost use Rattle.salvage.specs.Kept.{encoding_in, border_place, record_place, border_good, entry_good};

use crate::moves::ending::border_end;
use crate::strings::fields_good;
use border::reader::{Encoding, Version};
use header::header::Head;
use numbers::fault::Fault;
use numbers::refusal::{Refusal, or_refuse};
use table::rows::Row;

// How the file's borders are encoded.
pub(crate) fn encoding_in(head: Head) -> Encoding
    ensures { result ≡ encoded_by head.strict (version_of head.preamble.version) head.sections.«data» }
{
    let data = head.sections.data;
    let strict = head.strict;
    if head.preamble.version == 0 {
        return Encoding {
            version: Version::Plain,
            data,
            strict,
        };
    }
    Encoding {
        version: Version::Packed,
        data,
        strict,
    }
}

// A place so many bytes into a section, modulo 2^32.
pub(crate) fn section_place(start: u32, sum: u32) -> usize
    ensures { result ≡ (start + sum) % 2 ^ 32 }
{
    ((start as u64 + sum as u64) % 0x1_0000_0000) as usize
}

// Its border is read to the end.
pub(crate) fn border_good(file: &[u8], head: Head, row: Row) -> Result<(), Refusal>
    ensures { result ≡ border_good file.now head row }
{
    let place = section_place(head.sections.data, row.polygon);
    or_refuse(
        border_end(file, encoding_in(head), place),
        Fault::BorderFails.alone(),
    )
}

// The first reason met decides.
pub(crate) fn entry_good(file: &[u8], head: Head, row: Row) -> Result<(), Refusal>
    ensures { result ≡ entry_good file.now head row }
{
    border_good(file, head, row)?;
    let place = section_place(head.sections.metadata, row.metadata);
    fields_good(file, head, head.preamble.count as usize, place)
}
