// What a mark says, read from its words.
ghost use Rattle.std.specs.Prelude.{◌≡◌, ◌+◌, ◌*◌, ◌^◌, ◌≤◌, ◌<◌, length};
ghost use Rattle.marks.specs.{Marks.{groups_of}, Words.{point_in, run_of, state_in}};

use border::place::{FixedLat, FixedLon, Point};
use border::reader::{Reader, Run};

// How many words a mark has.
pub const MARK: usize = 11;

// How many edges a stretch has, and a group of sixteen stretches.
pub const STRETCH: usize = 128;

pub const GROUP: usize = 2048;

// How many groups so many stretches have.
pub fn groups_of(stretches: usize) -> usize
    ensures { result ≡ groups_of stretches }
{
    stretches / 16 + (stretches % 16 + 15) / 16
}

// A coordinate has its 32 bits in a word.

pub(crate) fn point_at(words: &[u32], at: usize) -> Point
    requires { at + 2 ≤ length words.now }
    ensures { result ≡ point_in words.now at }
{
    Point {
        lat: FixedLat(words[at].cast_signed()),
        lon: FixedLon(words[at + 1].cast_signed()),
    }
}

// Stays a switch, by tests in a row: of a match on a number the check learns nothing in the arms.
fn run_of(kind: u32, next: usize, end: usize) -> Run
    ensures { result ≡ run_of kind next end }
{
    if kind == 1 {
        return Run::Forward { next, end };
    }
    if kind == 2 {
        return Run::Backward { next, end };
    }
    Run::Idle
}

// The state of a reader at the mark's point.
pub(crate) fn state_at(words: &[u32], at: usize, first: Point) -> Reader
    requires { at + 11 ≤ length words.now }
    ensures { result ≡ state_in words.now at first }
{
    let next = words[at + 9] as usize;
    let end = words[at + 10] as usize;
    Reader {
        place: words[at + 6] as usize,
        moves: u64::from(words[at + 7]),
        begun: true,
        closed: false,
        point: point_at(words, at + 4),
        first,
        run: run_of(words[at + 8], next, end),
    }
}
