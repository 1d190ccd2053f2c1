// One turn: the bytes up to the next line end, and the line for the request that it ends.
ghost use Rattle.std.specs.Prelude.{◌≡◌, ◌≤◌, length, take};
ghost use Rattle.shell.specs.{Stream.{Ready}, Turn.{Turned}};

use crate::answer::answer;
use crate::gather::gather;

// The place behind what was taken, how many bytes the line so far has, how many to write, and 1 where a request was not stamped.
// Stays a number: Turned and status_of speak of it as the exit status, which is a number.
#[derive(Clone, Copy)]
pub struct Turn {
    pub next: usize,
    pub used: usize,
    pub size: usize,
    pub fault: u64,
}

// Stays, points 5 and 6: docs/PROMISES.md names it, so it takes what it took.
pub(crate) fn take_turn(
    chunk: &[u8],
    from: usize,
    line: &mut [u8],
    used: usize,
    map: &[u8],
    zones: &[u8],
    hits: &mut [u32],
    text: &mut [u8],
    out: &mut [u8],
) -> Turn
    requires { (from ≤ length chunk.now) × Ready line.old hits.old text.old out.old used }
    ensures { Turned chunk.now from (take used line.old) line.new map.now zones.now
        hits.new text.new out.new result }
{
    let step = gather(chunk, from, line, used);
    let size = step.used;
    if step.ended {
        let answered = answer(&line[..size], map, zones, hits, text, out);
        return Turn {
            next: step.next,
            used: 0,
            size: answered.size,
            fault: answered.fault,
        };
    }
    Turn {
        next: step.next,
        used: size,
        size: 0,
        fault: 0,
    }
}
