// Whether the lists of notes, and all others, are long enough for a yard more.
ghost use mathlib.Core.{Bool.{◌&&◌}, Path.{◌≡◌}};
ghost use Rattle.std.specs.Prelude.{◌+◌, ◌≤◌};
ghost use Rattle.draft.specs.Held.Space.{long_enough};
ghost use Rattle.add.specs.Adding.Adds.{Few, notes_enough};

use draft::held::room::{Rooms, has_space};
use draft::held::state::Held;

// The lengths of the lists of notes.
#[derive(Clone, Copy)]
pub struct NoteRooms {
    pub marks: usize,
    pub chains: usize,
    pub groups: usize,
    pub begins: usize,
}

fn has_notes(rooms: NoteRooms, names: usize, yards: usize) -> bool
    requires { (names ≤ 255) × (yards ≤ 4096) }
    ensures { result ≡ notes_enough rooms names yards }
{
    let values = yards * names;
    if rooms.marks < values + 1 {
        return false;
    }
    if rooms.chains < 4096 + values {
        return false;
    }
    if rooms.groups < 4096 + yards {
        return false;
    }
    yards <= rooms.begins
}

// One yard more, with so many bytes of values.
pub(crate) fn has_place(builder: Held, rooms: Rooms, notes: NoteRooms, sum: usize) -> bool
    requires { Few builder rooms.texts }
    ensures { result ≡ (long_enough rooms builder.names (builder.yards + 1) builder.front (builder.strings + sum) && notes_enough notes builder.names (builder.yards + 1)) }
{
    if rooms.texts - builder.strings < sum {
        return false;
    }
    let names = builder.names as usize;
    let strings = builder.strings + sum;
    if !has_space(rooms, names, builder.yards + 1, builder.front, strings) {
        return false;
    }
    has_notes(notes, names, builder.yards + 1)
}
