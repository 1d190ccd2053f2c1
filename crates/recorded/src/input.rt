// Records on an input: four bytes of a length, and so many bytes behind them.
// Stays, point 6: `size` is how much is to come, whatever room there is; a length takes four bytes.
ghost use Rattle.std.specs.Prelude.{◌≤◌};
ghost use Rattle.std.specs.Counts.{IsPrefixLen};

use crate::record::size_at;
use line::input::read_full;
use std::io::Read;

#[derive(Clone, Copy)]
pub enum Found {
    Record,
    TooLong,
    Nothing,
}

// What came of the input, and how many bytes of it stand at the front of the space.
#[derive(Clone, Copy)]
pub struct Came {
    pub found: Found,
    pub size: usize,
}

// Reads so many bytes into the space, or as many as it holds or the input has, and answers how many came.
fn read_some<R: Read>(reader: &mut R, space: &mut [u8], size: usize) -> usize
    ensures asked { result ≤ size }
    ensures within { IsPrefixLen result space.new }
{
    let step = size.min(space.len());
    read_full(reader, &mut space[..step])
}

// Passes over so many bytes.
// Stays a loop: it ends where the input does, and each step is as long as the read was.
fn pass_over<R: Read>(reader: &mut R, space: &mut [u8], size: usize) {
    let mut left = size;
    while 0 < left {
        let passed = read_some(reader, space, left);
        if passed == 0 {
            return;
        }
        left -= passed;
    }
}

// The next record. One that the input's end cuts is what is there of it.
pub fn next_record<R: Read>(reader: &mut R, space: &mut [u8]) -> Came
    ensures { IsPrefixLen result.size space.new }
{
    let mut head = [0u8; 4];
    if read_full(reader, &mut head) < 4 {
        return Came {
            found: Found::Nothing,
            size: 0,
        };
    }
    let size = size_at(&head, 0);
    if space.len() < size {
        pass_over(reader, space, size);
        return Came {
            found: Found::TooLong,
            size: 0,
        };
    }
    let got = read_some(reader, space, size);
    Came {
        found: Found::Record,
        size: got,
    }
}
