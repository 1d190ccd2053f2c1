// Bytes into the line that is being read.
ghost use Rattle.std.specs.Prelude.{◌≡◌, ◌≤◌, length, take};
ghost use Rattle.shell.specs.{Kept.{most}, Turn.{Gathered}};

// The place behind the bytes that were taken, how many bytes the line has, and whether it has ended.
#[derive(Clone, Copy)]
pub struct Step {
    pub next: usize,
    pub used: usize,
    pub ended: bool,
}

// Takes a piece's bytes from a place on, up to a line end or the piece's end. Of a line of more than 258 bytes its front is kept.
pub(crate) fn gather(chunk: &[u8], from: usize, line: &mut [u8], used: usize) -> Step
    requires { (from ≤ length chunk.now) × ((used ≤ most) × (length line.old ≡ most)) }
    ensures { Gathered chunk.now from (take used line.old) line.new result }
{
    let mut at = from;
    let mut size = used;
    while at < chunk.len() {
        let byte = chunk[at];
        at += 1;
        if byte == b'\n' {
            return Step {
                next: at,
                used: size,
                ended: true,
            };
        }
        if size < 258 {
            line[size] = byte;
            size += 1;
        }
    }
    Step {
        next: at,
        used: size,
        ended: false,
    }
}
