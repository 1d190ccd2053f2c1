// The scale on which a file reads an instant: UNIX time's, or its own, which counts leap seconds.
ghost use Rattle.std.specs.Prelude.{◌≡◌};
ghost use Rattle.localtime.specs.Local.{scale_in, Sound};

use tzif::block::Block;
use tzif::leap::correction_at;
use tzif::number::raised;

// 1 for UNIX time, 2 for the file's own scale, 0 where the file is refused; and the 32 bits of the correction, 0 without leap-second records.
// Stays a number: the kind is a word of the reply that C gets.
#[derive(Clone, Copy)]
pub struct Scale {
    pub kind: u8,
    pub correction: usize,
}

// That of a checked file, at an instant that is given more 2^63.
pub(crate) fn scale_in(file: &[u8], block: Block, instant: usize) -> Scale
    requires { Sound file.now block }
    ensures { result ≡ scale_in file.now block instant }
{
    if block.leapcnt == 0 {
        return Scale {
            kind: 1,
            correction: 0,
        };
    }
    let correction = raised(correction_at(file, block, instant));
    Scale {
        kind: 2,
        correction,
    }
}
