// Where the parts of a data block lie, one behind the other.
// Stays, point 2: one sum each, of other counts, as the definitions of specs/Block have them.
ghost use Rattle.std.specs.Prelude.{◌≡◌, ◌^◌, ◌<◌};
ghost use Rattle.tzif.specs.Block.{indices_of, types_of, designations_of, leaps_of, standards_of, uts_of, end_of};

use crate::block::Block;

pub(crate) fn indices_of(block: Block) -> usize
    requires { indices_of block < 2 ^ 64 }
    ensures { result ≡ indices_of block }
{
    block.begin + block.timecnt * block.width
}

pub(crate) fn types_of(block: Block) -> usize
    requires { types_of block < 2 ^ 64 }
    ensures { result ≡ types_of block }
{
    indices_of(block) + block.timecnt
}

pub(crate) fn designations_of(block: Block) -> usize
    requires { designations_of block < 2 ^ 64 }
    ensures { result ≡ designations_of block }
{
    types_of(block) + 6 * block.typecnt
}

pub(crate) fn leaps_of(block: Block) -> usize
    requires { leaps_of block < 2 ^ 64 }
    ensures { result ≡ leaps_of block }
{
    designations_of(block) + block.charcnt
}

pub(crate) fn standards_of(block: Block) -> usize
    requires { standards_of block < 2 ^ 64 }
    ensures { result ≡ standards_of block }
{
    leaps_of(block) + (block.leapcnt * block.width + block.leapcnt * 4)
}

pub(crate) fn uts_of(block: Block) -> usize
    requires { uts_of block < 2 ^ 64 }
    ensures { result ≡ uts_of block }
{
    standards_of(block) + block.isstdcnt
}

pub fn end_of(block: Block) -> usize
    requires { end_of block < 2 ^ 64 }
    ensures { result ≡ end_of block }
{
    uts_of(block) + block.isutcnt
}
