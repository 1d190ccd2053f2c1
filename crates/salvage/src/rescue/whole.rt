// The new file: its header, the sizes of its three sections, and the sections.
// Stays, points 2 and 6: the sizes are two lines each over other definitions; a list of no bytes, written into, counts without a heap.
// Stays, point 5: any header is taken with any file, so a struct of `file, head` would hold no fact.
ghost use Rattle.std.specs.Prelude.{◌++◌};
ghost use Rattle.salvage.specs.inner.Moves.Laid.{Capped};
ghost use Rattle.salvage.specs.File.{metadata_of, Sized};
ghost use Rattle.salvage.specs.inner.Rescue.{Texts.{Inlined}, Whole.{new_table, new_data, SizedIf, Sizes, whole_of}};

use crate::data::put_data;
use crate::entries::put_table;
use crate::moves::put::put_number;
use crate::rescue::copy::put_span;
use crate::rescue::texts::put_head;
use header::header::Head;
use numbers::refusal::Refusal;

// The metadata section, byte for byte.
fn put_metadata(file: &[u8], head: Head, out: &mut [u8], at: usize) -> usize
    ensures { Capped out.old at (metadata_of file.now head) out.new result }
{
    let from = head.sections.metadata as usize;
    let to = head.sections.data as usize;
    if to < from {
        return at;
    }
    put_span(file, from, to - from, out, at)
}

// ---- each section's length: it is written into no room
fn metadata_size(file: &[u8], head: Head) -> usize
    ensures { Sized (metadata_of file.now head) result }
{
    let mut nothing = [0u8; 0];
    put_metadata(file, head, &mut nothing, 0)
}

fn data_size(file: &[u8], head: Head) -> usize
    ensures { Sized (new_data file.now head) result }
{
    let mut nothing = [0u8; 0];
    put_data(file, head, &mut nothing, 0)
}

// Of the table only where the data section is not too long.
fn table_size(file: &[u8], head: Head) -> usize
    ensures { SizedIf (new_data file.now head) (new_table file.now head) result }
{
    let mut nothing = [0u8; 0];
    put_table(file, head, &mut nothing, 0)
}

fn put_sizes(file: &[u8], head: Head, out: &mut [u8], at: usize) -> usize
    ensures { Sizes (new_table file.now head) (metadata_of file.now head) (new_data file.now head) out.old at out.new result }
{
    let table = put_number(out, at, table_size(file, head) as u64);
    let metadata = put_number(out, table, metadata_size(file, head) as u64);
    put_number(out, metadata, data_size(file, head) as u64)
}

fn put_sections(file: &[u8], head: Head, out: &mut [u8], at: usize) -> usize
    ensures { Capped out.old at (new_table file.now head ++ (metadata_of file.now head ++ new_data file.now head)) out.new result }
{
    let metadata = put_table(file, head, out, at);
    let data = put_metadata(file, head, out, metadata);
    put_data(file, head, out, data)
}

// All of it, and its length.
pub(crate) fn put_whole(file: &[u8], head: Head, out: &mut [u8]) -> Result<usize, Refusal>
    ensures { Inlined (whole_of file.now head) out.old 0 out.new result }
{
    let sizes = put_head(file, head, out)?;
    let sections = put_sizes(file, head, out, sizes);
    Ok(put_sections(file, head, out, sections))
}
