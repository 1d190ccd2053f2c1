// A whole file from what is lent.
// Stays, point 6: C lends latitudes and longitudes, lengths and texts as lists of their own, and no heap holds others.
ghost use mathlib.Core.{Path.{◌≡◌}, List.{List}};
ghost use Rattle.std.specs.Prelude.{ℕ, ◌^◌, ◌≤◌, length, get_or};
ghost use Rattle.builder.specs.{File.{built_of}, Yards.{plan_of}};
ghost use Rattle.build.specs.{Room.{work_of, need_of, enough_for, room_of}, inner.Whole.{lent_for, lent_in, Good, Drew, file_for, ends_as, Fills, Starts, Settles}, Lists.{work_in}, Whole.{Builds, Cleared}};

use crate::asked::Asked;
use crate::checks::check_plan;
use crate::draw::draw;
use crate::fill::fill;
use crate::lent::Lent;
use crate::lists::Lists;
use crate::room::{Work, data_room, has_room, need_of, up_to};
use numbers::fault::Fault;
use numbers::refusal::Refusal;

// The checks, then the borders, into a list that begins with zero.
fn start(plan: Lent, places: &mut [u32], bytes: &mut [u8], out: &mut [u8]) -> Result<usize, Refusal>
    requires { get_or bytes.old 0 0 ≡ 0 }
    ensures { Starts (lent_in plan.entry) (length out.old) (length bytes.old) places.old places.new bytes.new result }
{
    check_plan(plan)?;
    let room = data_room(out.len(), bytes.len());
    draw(plan, room, places, bytes, out)
}

// The file itself, once its borders are drawn.
// Stays parameters: behind a struct of `&mut` lists a caller's proof did not close (tried in `clear`); what is only read is a `Lent`.
fn finish(
    plan: Lent,
    starts: &mut [u32],
    keys: &mut [u64],
    spare: &mut [u64],
    kept: &mut [u32],
    held: &mut [u8],
    words: &mut [u32],
    places: &mut [u32],
    boxes: &mut [i32],
    bytes: &[u8],
    out: &mut [u8],
) -> Result<usize, Refusal>
    requires { Good plan.asked.names plan.yards.now plan.lengths.now plan.texts.now × (length bytes.now ≤ 2 ^ 30) }
    ensures { (drawn : List ℕ) → Drew plan.entry.yards.now drawn places.old
        → Fills (ends_as (enough_for (work_of (length starts.old) (length keys.old) (length spare.old) (length kept.old) (length held.old) (length words.old) (length places.old) (length boxes.old))
        (need_of plan.entry.asked.names (length plan.entry.yards.now) plan.entry.lengths.now)) (length out.old)
        (file_for (lent_in plan.entry) drawn bytes.now)) (length out.old) out.new result }
{
    let need = need_of(plan.asked.names as usize, plan.yards.len(), plan.lengths);
    let work = Work {
        starts: starts.len(),
        keys: keys.len(),
        spare: spare.len(),
        kept: kept.len(),
        held: held.len(),
        words: words.len(),
        places: places.len(),
        boxes: boxes.len(),
    };
    if !has_room(work, need) {
        return Err(Fault::FileFull.alone());
    }
    let end = fill(
        plan, need, starts, keys, spare, kept, held, words, places, boxes, bytes, out,
    );
    if up_to(out.len()) < end {
        return Err(Fault::FileFull.alone());
    }
    Ok(end)
}

// With nothing zeroed afterwards.
// Stays parameters: as in `finish`.
fn fill_all(
    plan: Lent,
    starts: &mut [u32],
    keys: &mut [u64],
    spare: &mut [u64],
    kept: &mut [u32],
    held: &mut [u8],
    words: &mut [u32],
    places: &mut [u32],
    boxes: &mut [i32],
    bytes: &mut [u8],
    out: &mut [u8],
) -> Result<usize, Refusal>
    requires { get_or bytes.old 0 0 ≡ 0 }
    ensures { Fills (built_of (plan_of (lent_in plan.entry))
        (room_of (lent_in plan.entry)
        (work_of (length starts.old) (length keys.old) (length spare.old) (length kept.old) (length held.old) (length words.old) (length places.old) (length boxes.old))
        (length out.old) (length bytes.old))) (length out.old) out.new result }
{
    let size = start(plan, places, bytes, out)?;
    finish(
        plan,
        starts,
        keys,
        spare,
        kept,
        held,
        words,
        places,
        boxes,
        &bytes[..size],
        out,
    )
}

// Zeros over every working list.
fn clear(lists: Lists)
    ensures { Cleared (work_in lists.entry) (length lists.entry.bytes.now) lists.exit.0.now lists.exit.1.0.now lists.exit.1.1.0.now lists.exit.1.1.1.0.now
        lists.exit.1.1.1.1.0.now lists.exit.1.1.1.1.1.0.now lists.exit.1.1.1.1.1.1.0.now lists.exit.1.1.1.1.1.1.1.0.now lists.exit.1.1.1.1.1.1.1.1.0.now }
{
    lists.starts.fill(0);
    lists.keys.fill(0);
    lists.spare.fill(0);
    lists.kept.fill(0);
    lists.held.fill(0);
    lists.words.fill(0);
    lists.places.fill(0);
    lists.boxes.fill(0);
    lists.bytes.fill(0);
}

// Where it is refused, the output is zero.
pub fn settle(built: Result<usize, Refusal>, out: &mut [u8]) -> Result<usize, Refusal>
    ensures { Settles built out.old out.new result }
{
    if built.is_err() {
        out.fill(0);
    }
    built
}

// How long the file is; it stands at the front of the output, zeros behind it and in every other list; on a refusal zeros everywhere.
// Stays parameters: docs/PROMISES.md names it, so it takes what it took; C lends each list by itself.
pub fn build(
    asked: Asked,
    yards: &[u32],
    lats: &[i32],
    lons: &[i32],
    pieces: &[u32],
    lengths: &[u32],
    texts: &[u8],
    starts: &mut [u32],
    keys: &mut [u64],
    spare: &mut [u64],
    kept: &mut [u32],
    held: &mut [u8],
    words: &mut [u32],
    places: &mut [u32],
    boxes: &mut [i32],
    bytes: &mut [u8],
    out: &mut [u8],
) -> Result<usize, Refusal>
    ensures { Builds (lent_for asked yards.now lats.now lons.now pieces.now lengths.now texts.now)
        (room_of (lent_for asked yards.now lats.now lons.now pieces.now lengths.now texts.now)
        (work_of (length starts.old) (length keys.old) (length spare.old) (length kept.old) (length held.old) (length words.old) (length places.old) (length boxes.old))
        (length out.old) (length bytes.old)) out.new result
        × Cleared (work_of (length starts.old) (length keys.old) (length spare.old) (length kept.old) (length held.old) (length words.old) (length places.old) (length boxes.old))
        (length bytes.old) starts.new keys.new spare.new kept.new held.new words.new places.new boxes.new bytes.new }
{
    bytes.fill(0);
    let plan = Lent {
        asked,
        yards,
        lats,
        lons,
        pieces,
        lengths,
        texts,
    };
    let built = fill_all(
        plan, starts, keys, spare, kept, held, words, places, boxes, bytes, out,
    );
    clear(Lists {
        starts,
        keys,
        spare,
        kept,
        held,
        words,
        places,
        boxes,
        bytes,
    });
    settle(built, out)
}
