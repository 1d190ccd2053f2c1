// A builder and its calls, for C.
ghost use Rattle.std.specs.Prelude.{◌≡◌, length};
ghost use Rattle.add.specs.Adding.Adds.{Adds, note_rooms, used_out};
ghost use Rattle.edit.specs.Changing.{Begun.{Begins, first_plan, front_space}, Emptied.{Clears, own_rooms}, Dropped.{Drops}};
ghost use Rattle.add.specs.Growing.Notes.{notes_as};
ghost use Rattle.draft.specs.{Held.State.{Idle, lists_as, rooms_of, works_as}, Summed.Ends.{Files}};
ghost use Rattle.add.specs.Joining.Joins.{Rests};
ghost use Rattle.numbers.specs.Lists.{zeros};
ghost use Rattle.add.specs.Offered.Offers.{offered_as};
ghost use Rattle.edit.specs.Replacing.Replaced.{Replaces};
ghost use Rattle.office.specs.Draft.{Speaks, SpeaksNoted, Ends};

// Begins a builder. Values: its totals. On a refusal the state and its lists are zero.
#[unsafe(no_mangle)]
pub extern "C" fn uskelzar_begin(
    state: &mut [u64; 14],
    kind: u8,
    version: u8,
    precision: u8,
    names: u32,
    room: usize,
    sizes: &[u32],
    strings: &[u8],
    boxes: &mut [i32],
    borders: &mut [u32],
    lengths: &mut [u32],
    texts: &mut [u8],
    bytes: &mut [u8],
    reply: &mut [u64; 5],
) -> u8
    ensures { Speaks (λ _. Begins (first_plan kind version precision names sizes.now strings.now) room (front_space names sizes.now (length lengths.old) (length texts.old) (length bytes.old))
        (lists_as boxes.old borders.old lengths.old texts.old bytes.old)
        (lists_as boxes.new borders.new lengths.new texts.new bytes.new)) (zeros 14) state.new result reply.new }
{
    office::calls::uskelzar_begin(
        state, kind, version, precision, names, room, sizes, strings, boxes, borders, lengths,
        texts, bytes, reply,
    )
}

// Adds a yard. Values: the totals. Marks to begins are the builder's notes.
#[unsafe(no_mangle)]
pub extern "C" fn uskelzar_add(
    state: &mut [u64; 14],
    lats: &[i32],
    lons: &[i32],
    pieces: &[u32],
    sizes: &[u32],
    values: &[u8],
    boxes: &mut [i32],
    borders: &mut [u32],
    lengths: &mut [u32],
    texts: &mut [u8],
    bytes: &mut [u8],
    marks: &mut [u32],
    chains: &mut [u32],
    groups: &mut [u32],
    begins: &mut [u32],
    starts: &mut [u32],
    keys: &mut [u64],
    spare: &mut [u64],
    kept: &mut [u32],
    held: &mut [u8],
    words: &mut [u32],
    places: &mut [u32],
    out: &mut [u8],
    reply: &mut [u64; 5],
) -> u8
    ensures { let own = lists_as boxes.old borders.old lengths.old texts.old bytes.old in
        let work = works_as starts.old keys.old spare.old kept.old held.old words.old places.old in
        let notes = notes_as marks.old chains.old groups.old begins.old in
        SpeaksNoted (λ h noted. Adds h noted (offered_as lats.now lons.now pieces.now sizes.now values.now)
        (rooms_of own work) (note_rooms notes) (length out.old) own
        (lists_as boxes.new borders.new lengths.new texts.new bytes.new) notes
        (notes_as marks.new chains.new groups.new begins.new)) state.old state.new result reply.new
        × (Rests work (works_as starts.new keys.new spare.new kept.new held.new words.new places.new)
        × (out.new ≡ used_out (length lats.now) out.old)) }
{
    office::calls::uskelzar_add(
        state, lats, lons, pieces, sizes, values, boxes, borders, lengths, texts, bytes, marks,
        chains, groups, begins, starts, keys, spare, kept, held, words, places, out, reply,
    )
}

// Takes the last yard away. Values: the totals.
#[unsafe(no_mangle)]
pub extern "C" fn uskelzar_drop_last(
    state: &mut [u64; 14],
    boxes: &mut [i32],
    borders: &mut [u32],
    lengths: &mut [u32],
    texts: &mut [u8],
    bytes: &mut [u8],
    starts: &mut [u32],
    keys: &mut [u64],
    spare: &mut [u64],
    kept: &mut [u32],
    held: &mut [u8],
    words: &mut [u32],
    places: &mut [u32],
    reply: &mut [u64; 5],
) -> u8
    ensures { let own = lists_as boxes.old borders.old lengths.old texts.old bytes.old in
        let work = works_as starts.old keys.old spare.old kept.old held.old words.old places.old in
        Speaks (λ h. Drops h (rooms_of own work) own
        (lists_as boxes.new borders.new lengths.new texts.new bytes.new)) state.old state.new result reply.new
        × Idle work (works_as starts.new keys.new spare.new kept.new held.new words.new places.new) }
{
    office::calls::uskelzar_drop_last(
        state, boxes, borders, lengths, texts, bytes, starts, keys, spare, kept, held, words,
        places, reply,
    )
}

// Puts a text in the place of a yard's value. Values: the totals.
#[unsafe(no_mangle)]
pub extern "C" fn uskelzar_replace(
    state: &mut [u64; 14],
    yard: u32,
    field: u32,
    text: &[u8],
    boxes: &mut [i32],
    borders: &mut [u32],
    lengths: &mut [u32],
    texts: &mut [u8],
    bytes: &mut [u8],
    starts: &mut [u32],
    keys: &mut [u64],
    spare: &mut [u64],
    kept: &mut [u32],
    held: &mut [u8],
    words: &mut [u32],
    places: &mut [u32],
    out: &mut [u8],
    reply: &mut [u64; 5],
) -> u8
    ensures { let own = lists_as boxes.old borders.old lengths.old texts.old bytes.old in
        let work = works_as starts.old keys.old spare.old kept.old held.old words.old places.old in
        Speaks (λ h. Replaces h (rooms_of own work) (length out.old) yard field text.now own
        (lists_as boxes.new borders.new lengths.new texts.new bytes.new)) state.old state.new result reply.new
        × Idle work (works_as starts.new keys.new spare.new kept.new held.new words.new places.new)
        × (out.new ≡ zeros (length out.old)) }
{
    office::calls::uskelzar_replace(
        state, yard, field, text, boxes, borders, lengths, texts, bytes, starts, keys, spare, kept,
        held, words, places, out, reply,
    )
}

// Takes all yards away. Values: the totals.
#[unsafe(no_mangle)]
pub extern "C" fn uskelzar_clear(
    state: &mut [u64; 14],
    boxes: &mut [i32],
    borders: &mut [u32],
    lengths: &mut [u32],
    texts: &mut [u8],
    bytes: &mut [u8],
    reply: &mut [u64; 5],
) -> u8
    ensures { let own = lists_as boxes.old borders.old lengths.old texts.old bytes.old in
        Speaks (λ h. Clears h (own_rooms own) own (lists_as boxes.new borders.new lengths.new texts.new bytes.new)) state.old state.new result reply.new }
{
    office::calls::uskelzar_clear(state, boxes, borders, lengths, texts, bytes, reply)
}

// The file of the held yards. Values: its length. The builder stays as it is.
#[unsafe(no_mangle)]
pub extern "C" fn uskelzar_finish(
    state: &[u64; 14],
    boxes: &[i32],
    borders: &[u32],
    lengths: &[u32],
    texts: &[u8],
    bytes: &[u8],
    starts: &mut [u32],
    keys: &mut [u64],
    spare: &mut [u64],
    kept: &mut [u32],
    held: &mut [u8],
    words: &mut [u32],
    places: &mut [u32],
    out: &mut [u8],
    reply: &mut [u64; 5],
) -> u8
    ensures { let own = lists_as boxes.now borders.now lengths.now texts.now bytes.now in
        let work = works_as starts.old keys.old spare.old kept.old held.old words.old places.old in
        Ends (λ h. Files h (rooms_of own work) own (length out.old) out.new) state.now result reply.new
        × Idle work (works_as starts.new keys.new spare.new kept.new held.new words.new places.new) }
{
    office::calls::uskelzar_finish(
        state, boxes, borders, lengths, texts, bytes, starts, keys, spare, kept, held, words,
        places, out, reply,
    )
}
