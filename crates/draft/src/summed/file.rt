// The file of the held yards, written.
ghost use Rattle.std.specs.Prelude.{◌≡◌, length};
ghost use Rattle.writer.specs.inner.Stored.{Stored};
ghost use Rattle.builder.specs.File.{file_of};
ghost use Rattle.build.specs.Room.{work_of};
ghost use Rattle.draft.specs.Held.{Builder.{Builder}, State.{Holds}, Totals.{data_of}};
ghost use Rattle.numbers.specs.Lists.{zeros};
ghost use Rattle.draft.specs.{Summed.Ends.{texts_whole, Texts, Putting}, inner.Summed.Sums.{lists_in}};

use crate::held::own::Own;
use crate::held::state::Held;
use crate::summed::arrange::lay_out;
use crate::summed::sums::is_sum;
use build::write::write_file;
use builder::head::Form;

// The lengths of the names and the notice, and those of the values, are those of the texts.
pub(crate) fn are_whole(builder: Held, lengths: &[u32]) -> bool
    requires { Texts builder (length lengths.now) }
    ensures { result ≡ texts_whole builder lengths.now }
{
    // So many texts of 255 bytes are shorter.
    if 0x2000_0000 < builder.strings {
        return false;
    }
    let front = builder.names as usize + 1;
    let all = front + builder.names as usize * builder.yards;
    if !is_sum(&lengths[..front], builder.front) {
        return false;
    }
    is_sum(&lengths[front..all], builder.strings - builder.front)
}

// Stays parameters: behind a struct of `&mut` lists a caller's proof did not close (tried in build's `clear`).
pub(crate) fn put_file(
    builder: Held,
    own: Own,
    starts: &mut [u32],
    keys: &mut [u64],
    spare: &mut [u64],
    kept: &mut [u32],
    held: &mut [u8],
    words: &mut [u32],
    places: &mut [u32],
    out: &mut [u8],
) -> usize
    requires { Putting builder own.lengths.now (length own.texts.now) (length own.borders.now) (length own.bytes.now) (work_of (length starts.old) (length keys.old) (length spare.old) (length kept.old) (length held.old) (length words.old) (length places.old) (length own.boxes.now)) }
    ensures { (b : Builder) → Holds b builder (lists_in own.entry)
        → Stored (zeros (length out.old)) 0 (file_of b.plan (data_of b.plan)) out.new result }
{
    let names = builder.names as usize;
    let count = builder.yards;
    let front = names + 1;
    let all = front + names * count;
    let behind = builder.front;
    let sum = builder.strings;
    let size = builder.bytes;
    let section = lay_out(
        names,
        count,
        own.boxes,
        own.borders,
        &own.lengths[front..all],
        &own.texts[behind..sum],
        starts,
        keys,
        spare,
        kept,
        held,
        words,
        places,
    );
    let form = Form {
        kind: builder.kind,
        version: builder.version,
        precision: builder.precision,
        names: builder.names as u8,
    };
    let n = section.lengths;
    let m = section.bytes;
    let records = section.records;
    let metadata = records as u64 + section.remote as u64;
    write_file(
        form,
        &own.lengths[..front],
        &own.texts[..behind],
        &keys[..count],
        own.boxes,
        places,
        records,
        metadata,
        &words[..n],
        &kept[..n],
        &held[..m],
        &own.bytes[..size],
        out,
    )
}
