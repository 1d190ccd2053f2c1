// Times at equal distances in the file, and the last of them that is not after an instant.
ghost use Rattle.std.specs.Prelude.{◌≡◌, ◌+◌, ◌^◌, ◌<◌, length};
ghost use Rattle.tzif.specs.{Block.{leaps_of}, Times.{time_in, transitions_of, occurrences_of, last_not_after, Inside, Rises}};

use crate::block::Block;
use crate::number::time_at;
use crate::place::leaps_of;

#[derive(Clone, Copy)]
pub struct Times {
    pub begin: usize,
    pub stride: usize,
    pub count: usize,
    pub width: usize,
}

pub fn transitions_of(block: Block) -> Times
    ensures { result ≡ transitions_of block }
{
    Times {
        begin: block.begin,
        stride: block.width,
        count: block.timecnt,
        width: block.width,
    }
}

pub(crate) fn occurrences_of(block: Block) -> Times
    requires { (leaps_of block < 2 ^ 64) × (block.width + 4 < 2 ^ 64) }
    ensures { result ≡ occurrences_of block }
{
    Times {
        begin: leaps_of(block),
        stride: block.width + 4,
        count: block.leapcnt,
        width: block.width,
    }
}

pub fn time_in(file: &[u8], times: Times, i: usize) -> usize
    requires inside { Inside (length file.now) times }
    requires i_lt_count { i < times.count }
    ensures { result ≡ time_in file.now times i }
{
    time_at(file, times.begin + i * times.stride, times.width)
}

// Behind the last time that is not after an instant, by its index.
pub(crate) fn last_not_after(file: &[u8], times: Times, instant: usize) -> usize
    requires inside { Inside (length file.now) times }
    requires rises { Rises file.now times }
    ensures { result ≡ last_not_after file.now times instant }
{
    let mut low = 0;
    let mut high = times.count;
    // Stays, points 3 and 6: it bisects octets of the file, no list that `partition_point` could take.
    while low < high {
        let middle = low + (high - low) / 2;
        let time = time_in(file, times, middle);
        if time <= instant {
            low = middle + 1;
        } else {
            high = middle;
        }
    }
    low
}
