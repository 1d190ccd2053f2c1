// How much room is lent with a builder, and whether it is enough.
ghost use Rattle.std.specs.Prelude.{◌≡◌, ◌≤◌};
ghost use Rattle.draft.specs.Held.Space.{long_enough, own_enough, standing};

use crate::held::state::Held;
use build::room::{Work, has_lists};

// The lengths of the builder's lists, and of those to work in.
#[derive(Clone, Copy)]
pub struct Rooms {
    pub boxes: usize,
    pub borders: usize,
    pub lengths: usize,
    pub texts: usize,
    pub bytes: usize,
    pub starts: usize,
    pub keys: usize,
    pub spare: usize,
    pub kept: usize,
    pub held: usize,
    pub words: usize,
    pub places: usize,
}

// The builder's own lists are long enough for so many names, yards and bytes of texts.
pub(crate) fn has_own(rooms: Rooms, names: usize, yards: usize, strings: usize) -> bool
    requires { (names ≤ 255) × (yards ≤ 4096) }
    ensures { result ≡ own_enough rooms names yards strings }
{
    if rooms.borders < yards {
        return false;
    }
    if rooms.lengths < names + 1 + names * yards {
        return false;
    }
    if rooms.texts < strings {
        return false;
    }
    4 * yards <= rooms.boxes
}

// All lists are long enough for so many names and yards, so many bytes of names and notice, and so many of all texts.
pub fn has_space(rooms: Rooms, names: usize, yards: usize, front: usize, strings: usize) -> bool
    requires { (names ≤ 255) × (yards ≤ 4096) × (front ≤ strings) }
    ensures { result ≡ long_enough rooms names yards front strings }
{
    if !has_own(rooms, names, yards, strings) {
        return false;
    }
    let work = Work {
        starts: rooms.starts,
        keys: rooms.keys,
        spare: rooms.spare,
        kept: rooms.kept,
        held: rooms.held,
        words: rooms.words,
        places: rooms.places,
        boxes: rooms.boxes,
    };
    has_lists(work, yards, names * yards, strings - front)
}

// The builder's numbers fit its own lists.
pub fn stands(held: Held, rooms: Rooms) -> bool
    ensures { result ≡ standing held rooms }
{
    if 255 < held.names {
        return false;
    }
    if 4096 < held.yards {
        return false;
    }
    if held.strings < held.front {
        return false;
    }
    if held.bytes < 1 {
        return false;
    }
    if 0x4000_0000 < held.bytes {
        return false;
    }
    if rooms.bytes < held.bytes {
        return false;
    }
    let names = held.names as usize;
    has_own(rooms, names, held.yards, held.strings)
}
