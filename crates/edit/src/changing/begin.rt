// A builder that holds no yard yet.
// Stays, point 6: C lends these lists and keeps the builder's; a list of no bytes, written into, tells a size without a heap.
ghost use Rattle.std.specs.Prelude.{◌≡◌, ◌+◌, ◌*◌, ◌^◌, ◌≤◌, ◌<◌, length};
ghost use Rattle.builder.specs.{File.{head_from}, Yards.{cut_by, sum_of}};
ghost use Rattle.draft.specs.Held.State.{lists_as};
ghost use Rattle.edit.specs.Changing.Begun.{Begins, Checks, first_plan, front_space};

use crate::changing::copy::copy_words;
use crate::changing::cut::{Ends, cut_lists};
use crate::changing::sum::sum_within;
use build::asked::Asked;
use builder::drawing::form::is_known;
use builder::head::{Form, put_head};
use builder::put::put_bytes;
use builder::texts::are_texts;
use draft::held::state::Held;
use numbers::fault::Fault;
use numbers::refusal::Refusal;

// How long a file's header is up to the sizes.
fn head_size(form: Form, sizes: &[u32], strings: &[u8]) -> usize
    requires { (sum_of sizes.now ≤ length strings.now) × (sum_of sizes.now + 10 * length sizes.now < 2 ^ 59) }
    ensures { result ≡ length (head_from form.kind form.version form.precision form.names (cut_by sizes.now strings.now)) }
{
    let mut nothing = [0u8; 0];
    put_head(&mut nothing, form, sizes, strings)
}

// The numbers of an empty builder, if nothing is refused: 25, 26, 27, then 28 for a list that is too short.
fn check_begin(
    asked: Asked,
    room: usize,
    sizes: &[u32],
    strings: &[u8],
    lengths: usize,
    texts: usize,
    bytes: usize,
) -> Result<Held, Refusal>
    ensures { Checks asked.kind asked.version asked.precision asked.names room sizes.now strings.now lengths texts bytes result }
{
    if 255 < asked.names {
        return Err(Fault::BadYards.alone());
    }
    let count = asked.names as usize + 1;
    if sizes.len() < count {
        return Err(Fault::BadYards.alone());
    }
    if !are_texts(&sizes[..count], strings) {
        return Err(Fault::BadText.alone());
    }
    if !is_known(asked.kind, asked.version, asked.precision) {
        return Err(Fault::UnknownForm.alone());
    }
    if lengths < count {
        return Err(Fault::FileFull.alone());
    }
    let Some(front) = sum_within(&sizes[..count], texts) else {
        return Err(Fault::FileFull.alone());
    };
    if bytes < 1 {
        return Err(Fault::FileFull.alone());
    }
    let form = Form {
        kind: asked.kind,
        version: asked.version,
        precision: asked.precision,
        names: asked.names as u8,
    };
    let head = head_size(form, &sizes[..count], strings);
    Ok(Held {
        kind: asked.kind,
        version: asked.version,
        precision: asked.precision,
        names: asked.names,
        room,
        head,
        front,
        strings: front,
        table: 0,
        metadata: 0,
        bytes: 1,
        yards: 0,
        greatest: 0,
    })
}

// All lists are zero first, and stay so on a refusal; then the names and the notice stand at the front.
pub fn begin(
    asked: Asked,
    room: usize,
    sizes: &[u32],
    strings: &[u8],
    boxes: &mut [i32],
    borders: &mut [u32],
    lengths: &mut [u32],
    texts: &mut [u8],
    bytes: &mut [u8],
) -> Result<Held, Refusal>
    ensures { Begins (first_plan asked.kind asked.version asked.precision asked.names sizes.now strings.now) room
        (front_space asked.names sizes.now (length lengths.old) (length texts.old) (length bytes.old))
        (lists_as boxes.old borders.old lengths.old texts.old bytes.old)
        (lists_as boxes.new borders.new lengths.new texts.new bytes.new) result }
{
    let none = Ends {
        boxes: 0,
        borders: 0,
        lengths: 0,
        texts: 0,
        bytes: 0,
    };
    cut_lists(none, boxes, borders, lengths, texts, bytes);
    let held = check_begin(
        asked,
        room,
        sizes,
        strings,
        lengths.len(),
        texts.len(),
        bytes.len(),
    )?;
    let count = asked.names as usize + 1;
    let size = held.front;
    copy_words(lengths, &sizes[..count]);
    put_bytes(texts, 0, &strings[..size]);
    Ok(held)
}
