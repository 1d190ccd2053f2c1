// How much room is lent, and how much a plan needs.
ghost use Rattle.std.specs.Prelude.{◌≡◌, ◌+◌, ◌*◌, ◌/◌, ◌^◌, ◌≤◌, ◌<◌, min, length, take};
ghost use Rattle.builder.specs.{File.{up_to}, Yards.{sum_of}};
ghost use Rattle.build.specs.Room.{enough, enough_for, need_of};

// The lengths of the working lists.
#[derive(Clone, Copy)]
pub struct Work {
    pub starts: usize,
    pub keys: usize,
    pub spare: usize,
    pub kept: usize,
    pub held: usize,
    pub words: usize,
    pub places: usize,
    pub boxes: usize,
}

// How many yards there are; how many lengths the names and the notice have, and all texts; how many bytes they have.
#[derive(Clone, Copy)]
pub struct Need {
    pub count: usize,
    pub front: usize,
    pub all: usize,
    pub behind: usize,
    pub sum: usize,
}

// No more than 1 GiB.
pub fn up_to(room: usize) -> usize
    ensures { result ≡ up_to room }
{
    room.min(0x4000_0000)
}

// The room of the data section: of the output and of the list for it.
pub fn data_room(out: usize, bytes: usize) -> usize
    ensures { result ≡ up_to (min out bytes) }
{
    up_to(out.min(bytes))
}

// The sum of some lengths.
pub fn sum_of(lengths: &[u32]) -> usize
    requires { sum_of lengths.now < 2 ^ 60 }
    ensures { result ≡ sum_of lengths.now }
{
    let mut sum = 0;
    for length in lengths {
        sum += *length as usize;
    }
    sum
}

pub(crate) fn need_of(names: usize, words: usize, lengths: &[u32]) -> Need
    requires { (names ≤ 255) × (words / 4 ≤ 4096) × (names + 1 + names * (words / 4) ≤ length lengths.now) × (sum_of (take (names + 1 + names * (words / 4)) lengths.now) < 2 ^ 60) }
    ensures { result ≡ need_of names words lengths.now }
{
    let count = words / 4;
    let front = names + 1;
    let all = front + names * count;
    let behind = sum_of(&lengths[..front]);
    let sum = sum_of(&lengths[..all]);
    Need {
        count,
        front,
        all,
        behind,
        sum,
    }
}

// The working lists are long enough for so many yards, fields and bytes of values.
pub fn has_lists(work: Work, count: usize, fields: usize, bytes: usize) -> bool
    requires { count ≤ 4096 }
    ensures { result ≡ enough work count fields bytes }
{
    if work.starts <= fields {
        return false;
    }
    if work.keys < fields {
        return false;
    }
    if work.keys < count {
        return false;
    }
    if work.spare < fields {
        return false;
    }
    if work.spare < count {
        return false;
    }
    if work.kept < fields {
        return false;
    }
    if work.held < bytes {
        return false;
    }
    if work.words < fields {
        return false;
    }
    if work.places < 2 * count {
        return false;
    }
    4 * count <= work.boxes
}

pub(crate) fn has_room(work: Work, need: Need) -> bool
    requires { (need.count ≤ 4096) × (need.front ≤ need.all) × (need.behind ≤ need.sum) }
    ensures { result ≡ enough_for work need }
{
    has_lists(
        work,
        need.count,
        need.all - need.front,
        need.sum - need.behind,
    )
}
