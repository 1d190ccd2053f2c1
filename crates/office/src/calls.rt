// A builder and its calls, for C.
// Stays, points 5 and 6: C calls the functions `uskelzar_..` by their names, with these parameters.
ghost use Rattle.std.specs.Prelude.{◌≡◌, length};
ghost use mir.{Syntax.{w32}, Val.{SFits, of_z}};
ghost use Rattle.add.specs.Adding.Adds.{Adds, note_rooms, used_out};
ghost use Rattle.edit.specs.Changing.{Begun.{Begins, first_plan, front_space}, Emptied.{Clears, own_rooms}, Dropped.{Drops}};
ghost use Rattle.add.specs.Growing.Notes.{notes_as};
ghost use Rattle.draft.specs.{Held.State.{Idle, lists_as, rooms_of, works_as}, Summed.Ends.{Files}};
ghost use Rattle.add.specs.Joining.Joins.{Rests};
ghost use Rattle.numbers.specs.Lists.{zeros};
ghost use Rattle.add.specs.Offered.Offers.{offered_as};
ghost use Rattle.edit.specs.Replacing.Replaced.{Replaces};
ghost use Rattle.numbers.specs.Spoken.{said_of};
ghost use Rattle.office.specs.Draft.{held_of, noted_in, words_of, totals_values, Kept, Spoke, Speaks, SpeaksNoted, Ends};

use crate::said::say_length;
use add::adding::add::add;
use build::asked::Asked;
use draft::held::state::Held;
use draft::summed::finish::finish;
use edit::changing::begin::begin;
use edit::changing::clear::clear;
use edit::changing::drop::drop_last;
use edit::replacing::replace::replace;
use numbers::point::{bits_of, signed};
use numbers::refusal::Refusal;
use numbers::said::{Said, say_refused, speak};

// No `From`: neither `Held` nor a list of words is a type of this crate.
// A builder's numbers from their words, all but the last, which tells of its notes. Any words are a builder: what its lists cannot hold is refused by each call.
fn state_of(words: [u64; 14]) -> Held
    ensures { result ≡ held_of words }
{
    let bits = words[12] % 0x1_0000_0000;
    Held {
        kind: (words[0] % 256) as u8,
        version: (words[1] % 256) as u8,
        precision: (words[2] % 256) as u8,
        names: (words[3] % 0x1_0000_0000) as u32,
        room: words[4] as usize,
        head: words[5] as usize,
        front: words[6] as usize,
        strings: words[7] as usize,
        table: words[8] as usize,
        metadata: words[9] as usize,
        bytes: words[10] as usize,
        yards: words[11] as usize,
        // of twice the bits half is kept, with their sign
        greatest: signed(2 * bits),
    }
}

fn noted_of(words: [u64; 14]) -> usize
    ensures { result ≡ noted_in words }
{
    words[13] as usize
}

// The 32 bits of the greatest lower latitude.
// Stays apart: one line; tzif's `offset_bits` is another number's, and keeps another clause.
// Stays by hand: it is no order: the greatest latitude is one of the builder's numbers.
fn greatest_bits(held: Held) -> u64
    ensures { (result ≡ of_z w32 held.greatest) × SFits w32 held.greatest }
{
    bits_of(held.greatest) as u64
}

fn words_of(held: Held, noted: usize) -> [u64; 14]
    ensures { (result ≡ words_of held noted) × (held_of result ≡ held) }
{
    let bits = greatest_bits(held);
    [
        held.kind as u64,
        held.version as u64,
        held.precision as u64,
        held.names as u64,
        held.room as u64,
        held.head as u64,
        held.front as u64,
        held.strings as u64,
        held.table as u64,
        held.metadata as u64,
        held.bytes as u64,
        held.yards as u64,
        bits,
        noted as u64,
    ]
}

fn say_changed(changed: Result<Held, Refusal>) -> Said
    ensures { result ≡ said_of totals_values changed }
{
    match changed {
        Ok(held) => {
            let bits = greatest_bits(held);
            Said {
                number: 0,
                words: [
                    held.table as u64,
                    held.metadata as u64,
                    held.bytes as u64,
                    held.yards as u64,
                    bits,
                ],
            }
        }
        Err(why) => say_refused(why),
    }
}

// The changed builder's words, and what is noted beside it; on a refusal they stay as they are.
fn keep(changed: Result<Held, Refusal>, noted: usize, state: &mut [u64; 14])
    ensures { Kept noted state.old state.new changed }
{
    if let Ok(held) = changed {
        *state = words_of(held, noted);
    }
}

// With 0 noted the next add sums afresh.
fn speak_changed(
    changed: Result<Held, Refusal>,
    noted: usize,
    state: &mut [u64; 14],
    reply: &mut [u64; 5],
) -> u8
    ensures { Spoke changed noted state.old state.new result reply.new }
{
    keep(changed, noted, state);
    speak(say_changed(changed), reply)
}

// Begins a builder. Values: its totals. On a refusal the state and its lists are zero.
pub fn uskelzar_begin(
    state: &mut [u64; 14],
    kind: u8,
    version: u8,
    precision: u8,
    names: u32,
    room: usize,
    sizes: &[u32],
    strings: &[u8],
    boxes: &mut [i32],
    borders: &mut [u32],
    lengths: &mut [u32],
    texts: &mut [u8],
    bytes: &mut [u8],
    reply: &mut [u64; 5],
) -> u8
    ensures { Speaks (λ _. Begins (first_plan kind version precision names sizes.now strings.now) room (front_space names sizes.now (length lengths.old) (length texts.old) (length bytes.old))
        (lists_as boxes.old borders.old lengths.old texts.old bytes.old)
        (lists_as boxes.new borders.new lengths.new texts.new bytes.new)) (zeros 14) state.new result reply.new }
{
    *state = [0; 14];
    let asked = Asked {
        kind,
        version,
        precision,
        names,
    };
    let changed = begin(
        asked, room, sizes, strings, boxes, borders, lengths, texts, bytes,
    );
    speak_changed(changed, 0, state, reply)
}

// Adds a yard. Values: the totals. Marks to begins are the builder's notes.
pub fn uskelzar_add(
    state: &mut [u64; 14],
    lats: &[i32],
    lons: &[i32],
    pieces: &[u32],
    sizes: &[u32],
    values: &[u8],
    boxes: &mut [i32],
    borders: &mut [u32],
    lengths: &mut [u32],
    texts: &mut [u8],
    bytes: &mut [u8],
    marks: &mut [u32],
    chains: &mut [u32],
    groups: &mut [u32],
    begins: &mut [u32],
    starts: &mut [u32],
    keys: &mut [u64],
    spare: &mut [u64],
    kept: &mut [u32],
    held: &mut [u8],
    words: &mut [u32],
    places: &mut [u32],
    out: &mut [u8],
    reply: &mut [u64; 5],
) -> u8
    ensures { let own = lists_as boxes.old borders.old lengths.old texts.old bytes.old in
        let work = works_as starts.old keys.old spare.old kept.old held.old words.old places.old in
        let notes = notes_as marks.old chains.old groups.old begins.old in
        SpeaksNoted (λ h noted. Adds h noted (offered_as lats.now lons.now pieces.now sizes.now values.now)
        (rooms_of own work) (note_rooms notes) (length out.old) own
        (lists_as boxes.new borders.new lengths.new texts.new bytes.new) notes
        (notes_as marks.new chains.new groups.new begins.new)) state.old state.new result reply.new
        × (Rests work (works_as starts.new keys.new spare.new kept.new held.new words.new places.new)
        × (out.new ≡ used_out (length lats.now) out.old)) }
{
    let builder = state_of(*state);
    let noted = noted_of(*state);
    let added = add(
        builder, noted, lats, lons, pieces, sizes, values, boxes, borders, lengths, texts, bytes,
        marks, chains, groups, begins, starts, keys, spare, kept, held, words, places, out,
    );
    speak_changed(added.changed, added.noted, state, reply)
}

// Takes the last yard away. Values: the totals.
pub fn uskelzar_drop_last(
    state: &mut [u64; 14],
    boxes: &mut [i32],
    borders: &mut [u32],
    lengths: &mut [u32],
    texts: &mut [u8],
    bytes: &mut [u8],
    starts: &mut [u32],
    keys: &mut [u64],
    spare: &mut [u64],
    kept: &mut [u32],
    held: &mut [u8],
    words: &mut [u32],
    places: &mut [u32],
    reply: &mut [u64; 5],
) -> u8
    ensures { let own = lists_as boxes.old borders.old lengths.old texts.old bytes.old in
        let work = works_as starts.old keys.old spare.old kept.old held.old words.old places.old in
        Speaks (λ h. Drops h (rooms_of own work) own
        (lists_as boxes.new borders.new lengths.new texts.new bytes.new)) state.old state.new result reply.new
        × Idle work (works_as starts.new keys.new spare.new kept.new held.new words.new places.new) }
{
    let builder = state_of(*state);
    let changed = drop_last(
        builder, boxes, borders, lengths, texts, bytes, starts, keys, spare, kept, held, words,
        places,
    );
    speak_changed(changed, 0, state, reply)
}

// Puts a text in the place of a yard's value. Values: the totals.
pub fn uskelzar_replace(
    state: &mut [u64; 14],
    yard: u32,
    field: u32,
    text: &[u8],
    boxes: &mut [i32],
    borders: &mut [u32],
    lengths: &mut [u32],
    texts: &mut [u8],
    bytes: &mut [u8],
    starts: &mut [u32],
    keys: &mut [u64],
    spare: &mut [u64],
    kept: &mut [u32],
    held: &mut [u8],
    words: &mut [u32],
    places: &mut [u32],
    out: &mut [u8],
    reply: &mut [u64; 5],
) -> u8
    ensures { let own = lists_as boxes.old borders.old lengths.old texts.old bytes.old in
        let work = works_as starts.old keys.old spare.old kept.old held.old words.old places.old in
        Speaks (λ h. Replaces h (rooms_of own work) (length out.old) yard field text.now own
        (lists_as boxes.new borders.new lengths.new texts.new bytes.new)) state.old state.new result reply.new
        × Idle work (works_as starts.new keys.new spare.new kept.new held.new words.new places.new)
        × (out.new ≡ zeros (length out.old)) }
{
    let builder = state_of(*state);
    let changed = replace(
        builder, yard, field, text, boxes, borders, bytes, lengths, texts, starts, keys, spare,
        kept, held, words, places, out,
    );
    speak_changed(changed, 0, state, reply)
}

// Takes all yards away. Values: the totals.
pub fn uskelzar_clear(
    state: &mut [u64; 14],
    boxes: &mut [i32],
    borders: &mut [u32],
    lengths: &mut [u32],
    texts: &mut [u8],
    bytes: &mut [u8],
    reply: &mut [u64; 5],
) -> u8
    ensures { let own = lists_as boxes.old borders.old lengths.old texts.old bytes.old in
        Speaks (λ h. Clears h (own_rooms own) own (lists_as boxes.new borders.new lengths.new texts.new bytes.new)) state.old state.new result reply.new }
{
    let builder = state_of(*state);
    let changed = clear(builder, boxes, borders, lengths, texts, bytes);
    speak_changed(changed, 0, state, reply)
}

// The file of the held yards. Values: its length. The builder stays as it is.
pub fn uskelzar_finish(
    state: &[u64; 14],
    boxes: &[i32],
    borders: &[u32],
    lengths: &[u32],
    texts: &[u8],
    bytes: &[u8],
    starts: &mut [u32],
    keys: &mut [u64],
    spare: &mut [u64],
    kept: &mut [u32],
    held: &mut [u8],
    words: &mut [u32],
    places: &mut [u32],
    out: &mut [u8],
    reply: &mut [u64; 5],
) -> u8
    ensures { let own = lists_as boxes.now borders.now lengths.now texts.now bytes.now in
        let work = works_as starts.old keys.old spare.old kept.old held.old words.old places.old in
        Ends (λ h. Files h (rooms_of own work) own (length out.old) out.new) state.now result reply.new
        × Idle work (works_as starts.new keys.new spare.new kept.new held.new words.new places.new) }
{
    let builder = state_of(*state);
    let built = finish(
        builder, boxes, borders, lengths, texts, bytes, starts, keys, spare, kept, held, words,
        places, out,
    );
    speak(say_length(built), reply)
}
