// The file of a plan whose borders are drawn, over lists that are long enough.
// Stays, point 5: behind a struct of `&mut` lists a caller's proof did not close (tried in `clear`); what a plan lends is a `Lent`.
ghost use mathlib.Core.{Path.{◌≡◌}, List.{List, [], map}};
ghost use Rattle.std.specs.Prelude.{ℕ, ◌*◌, ◌/◌, ◌^◌, ◌≤◌, length, take};
ghost use Rattle.writer.specs.inner.Stored.{Stored};
ghost use Rattle.builder.specs.{Entries.{table_from, entry_of_word}, File.{head_from, assembled}, Yards.{cut_by, yards_from}};
ghost use Rattle.build.specs.Entries.Corners.{InOrder};
ghost use Rattle.numbers.specs.Lists.{zeros};
ghost use Rattle.build.specs.{inner.{Puts.{section_from, SectionIn, Headed}, Whole.{lent_in, Filling, file_for, Drew}}, Room.{work_of}};

use crate::entries::order::order_yards;
use crate::lent::Lent;
use crate::recording::section::{Section, lay_records};
use crate::room::Need;
use crate::write::write_file;
use builder::head::Form;

// The yards in the order of the table, and the whole file.
fn put_file(
    form: Form,
    plan: Lent,
    front: &[u32],
    strings: &[u8],
    boxes: &mut [i32],
    keys: &mut [u64],
    spare: &mut [u64],
    places: &[u32],
    section: Section,
    kept: &[u32],
    held: &[u8],
    words: &[u32],
    bytes: &[u8],
    out: &mut [u8],
) -> usize
    requires { Headed front.now strings.now × SectionIn section.records section.remote section.lengths section.bytes kept.now held.now words.now × (length keys.old ≡ length plan.yards.now / 4) × (length keys.old ≤ 4096)
        × (4 * length keys.old ≤ length boxes.old) × (length keys.old ≤ length spare.old) × (length bytes.now ≤ 2 ^ 30) }
    ensures { InOrder (yards_from plan.entry.yards.now plan.entry.lats.now plan.entry.lons.now [] []) boxes.old boxes.new keys.new spare.old spare.new
        × Stored (zeros (length out.old)) 0 (assembled (head_from form.kind form.version form.precision form.names (cut_by front.now strings.now))
        (table_from 0 0 (map (entry_of_word boxes.new places.now) keys.new))
        (section_from section.records (take section.lengths words.now) (take section.lengths kept.now) (take section.bytes held.now)) bytes.now) out.new result }
{
    order_yards(plan.yards, plan.lats, plan.lons, boxes, keys, spare);
    let n = section.lengths;
    let m = section.bytes;
    let records = section.records;
    let size = records as u64 + section.remote as u64;
    write_file(
        form,
        front,
        strings,
        keys,
        boxes,
        places,
        records,
        size,
        &words[..n],
        &kept[..n],
        &held[..m],
        bytes,
        out,
    )
}

// The metadata laid out, and the file.
pub(crate) fn fill(
    plan: Lent,
    need: Need,
    starts: &mut [u32],
    keys: &mut [u64],
    spare: &mut [u64],
    kept: &mut [u32],
    held: &mut [u8],
    words: &mut [u32],
    places: &mut [u32],
    boxes: &mut [i32],
    bytes: &[u8],
    out: &mut [u8],
) -> usize
    requires { Filling plan.asked.names plan.yards.now plan.lengths.now plan.texts.now need (work_of (length starts.old) (length keys.old) (length spare.old) (length kept.old) (length held.old) (length words.old) (length places.old) (length boxes.old)) × (length bytes.now ≤ 2 ^ 30) }
    ensures { (drawn : List ℕ) → Drew plan.entry.yards.now drawn places.old
        → Stored (zeros (length out.old)) 0 (file_for (lent_in plan.entry) drawn bytes.now) out.new result }
{
    let count = need.count;
    let front = need.front;
    let all = need.all;
    let behind = need.behind;
    let sum = need.sum;
    let section = lay_records(
        plan.asked.names as usize,
        count,
        &plan.lengths[front..all],
        &plan.texts[behind..sum],
        starts,
        keys,
        spare,
        kept,
        held,
        words,
        places,
    );
    let form = Form {
        kind: plan.asked.kind,
        version: plan.asked.version,
        precision: plan.asked.precision,
        names: plan.asked.names as u8,
    };
    put_file(
        form,
        plan,
        &plan.lengths[..front],
        plan.texts,
        boxes,
        &mut keys[..count],
        spare,
        places,
        section,
        kept,
        held,
        words,
        bytes,
        out,
    )
}
