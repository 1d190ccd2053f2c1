// A yard more by a sure step, which sums nothing afresh: beside its own yard it looks at the box of each held one. The notes may be forged: then what is said may be wrong, and no more.
// Stays, point 6: C lends these lists, longer than what stands in them, and keeps the builder's and the notes' between the calls.
ghost use Rattle.std.specs.Prelude.{◌≡◌, ◌+◌, ◌-◌, ◌*◌, ◌^◌, ◌≤◌, ◌<◌};
ghost use lib.{ListN.{length, take, drop, set}, Seq.{sets}};
ghost use Rattle.builder.specs.Yards.{sum_of};
ghost use Rattle.builder.specs.Grouping.Items.{starts_from};
ghost use Rattle.add.specs.{inner.Growing.Joins.{Grows}, Growing.Notes.{notes_as}};
ghost use Rattle.notes.specs.inner.Noted.Noting.{NotesOne};
ghost use Rattle.add.specs.inner.Surely.Sure.{SureRoom, Joinable, Joins, Weighing, Growths, ended_at};

use crate::growing::grow::grow;
use draft::held::state::Held;
use draft::summed::sums::Sums;
use header::zero::zero_words;
use notes::noted::note::{mark_more, note_yard};
use notes::quick::step::{Numbers, Stepped, step};
use numbers::refusal::Refusal;

// What the builder becomes, what is noted then, and where the yard's record begins.
#[derive(Clone, Copy)]
pub(crate) struct Next {
    pub held: Held,
    pub noted: usize,
    pub begin: u32,
}

// Where the values of the yard begin, behind those that are held.
fn mark_yard(builder: Held, sizes: &[u32], marks: &mut [u32])
    requires { (builder.names ≤ 255) × (builder.yards < 4096) × (builder.front ≤ builder.strings) × (builder.strings - builder.front ≤ 2 ^ 29) × (sum_of sizes.now ≤ 2 ^ 16) × (builder.yards * builder.names + length sizes.now < length marks.old) }
    ensures { marks.new ≡ sets marks.old (builder.yards * builder.names + 1) (drop 1 (starts_from (builder.strings - builder.front) sizes.now)) }
{
    let names = builder.names as usize;
    let at = builder.yards * names;
    let begin = (builder.strings - builder.front) as u32;
    mark_more(sizes, begin, marks, at);
}

// They go again.
fn unmark_yard(builder: Held, marks: &mut [u32])
    requires { (builder.names ≤ 255) × (builder.yards < 4096) × (builder.yards * builder.names < length marks.old) }
    ensures { marks.new ≡ ended_at (builder.yards * builder.names + 1) marks.old }
{
    let names = builder.names as usize;
    let end = builder.yards * names + 1;
    zero_words(&mut marks[end..]);
}

// The step of the yard, whose values are marked.
fn weigh_yard(
    builder: Held,
    noted: usize,
    boxes: &[i32],
    borders: &[u32],
    texts: &[u8],
    marks: &[u32],
    chains: &[u32],
    groups: &[u32],
    begins: &[u32],
) -> Option<Stepped>
    requires { (0 < noted) × SureRoom builder (length boxes.now) (length borders.now) (length marks.now) (length chains.now) (length groups.now) (length begins.now) }
    ensures { Weighing builder noted boxes.now borders.now texts.now marks.now chains.now groups.now begins.now result }
{
    let names = builder.names as usize;
    let count = builder.yards;
    let end = (count + 1) * names + 1;
    let greatest = builder.greatest;
    let numbers = Numbers {
        records: noted - 1,
        metadata: builder.metadata,
        table: builder.table,
        greatest,
    };
    step(
        names,
        count,
        numbers,
        boxes,
        borders,
        &marks[..end],
        texts,
        chains,
        groups,
        begins,
    )
}

// The notes with the yard, whose record begins so. What it promises is said over plain lists, as `note_yard` has it.
fn note_step(
    builder: Held,
    begin: u32,
    texts: &[u8],
    marks: &[u32],
    chains: &mut [u32],
    groups: &mut [u32],
    begins: &mut [u32],
)
    requires { SureRoom builder (4 * builder.yards + 4) (builder.yards + 1) (length marks.now) (length chains.old) (length groups.old) (length begins.old) }
    ensures { NotesOne builder.names builder.yards (take ((builder.yards + 1) * builder.names + 1) marks.now) texts.now chains.old groups.old chains.new groups.new
        × (begins.new ≡ set begins.old builder.yards begin) }
{
    let names = builder.names as usize;
    let count = builder.yards;
    let end = (count + 1) * names + 1;
    note_yard(names, count, &marks[..end], texts, chains, groups);
    begins[count] = begin;
}

// What the builder becomes by a step; none where that is not sure.
fn grow_surely(
    builder: Held,
    strings: usize,
    size: usize,
    weighed: Option<Stepped>,
) -> Result<Option<Next>, Refusal>
    requires { Grows builder size }
    ensures { Growths builder strings size weighed result }
{
    let Some(step) = weighed else {
        return Ok(None);
    };
    let records = step.records;
    // No file is as long. One more than the bytes of the records is a number still.
    if 0x4000_0000 < records {
        return Ok(None);
    }
    let sums = Sums {
        table: step.table,
        metadata: step.metadata,
        greatest: step.greatest,
        records: records as u32,
    };
    let held = grow(builder, strings, size, sums)?;
    Ok(Some(Next {
        held,
        noted: records + 1,
        begin: step.begin,
    }))
}

// The texts end so then, and the data is so many bytes longer; the lists have the yard already, and these texts are those of the values alone.
// None where that is not sure: then nothing is changed.
pub(crate) fn join_sure(
    builder: Held,
    noted: usize,
    strings: usize,
    size: usize,
    sizes: &[u32],
    boxes: &[i32],
    borders: &[u32],
    texts: &[u8],
    marks: &mut [u32],
    chains: &mut [u32],
    groups: &mut [u32],
    begins: &mut [u32],
) -> Result<Option<Next>, Refusal>
    requires { Joinable builder size sizes.now (length texts.now) (length boxes.now) (length borders.now) (length marks.old) (length chains.old) (length groups.old) (length begins.old) }
    ensures { Joins builder noted strings size sizes.now boxes.now borders.now texts.now
        (notes_as marks.old chains.old groups.old begins.old) (notes_as marks.new chains.new groups.new begins.new) result }
{
    if noted == 0 {
        return Ok(None);
    }
    // So many texts of 255 bytes are shorter.
    if 0x2000_0000 < texts.len() {
        return Ok(None);
    }
    mark_yard(builder, sizes, marks);
    let weighed = weigh_yard(
        builder, noted, boxes, borders, texts, marks, chains, groups, begins,
    );
    let growth = grow_surely(builder, strings, size, weighed);
    let next = match growth {
        Ok(Some(next)) => next,
        Ok(None) => {
            unmark_yard(builder, marks);
            return Ok(None);
        }
        Err(why) => {
            unmark_yard(builder, marks);
            return Err(why);
        }
    };
    note_step(builder, next.begin, texts, marks, chains, groups, begins);
    Ok(Some(next))
}
