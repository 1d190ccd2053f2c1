// The rules for one entry of each part of a data block.
ghost use Rattle.std.specs.Prelude.{◌≡◌, ◌<◌, length};
ghost use Rattle.tzif.specs.{Block.{Within}, Check.{nul_end, check_time, check_index, check_type, is_standard, check_standard, check_ut}};

use crate::block::Block;
use crate::number::{be32, octet};
use crate::place::{designations_of, indices_of, standards_of, types_of, uts_of};
use crate::refusal::{Refusal, demand};
use crate::times::{time_in, transitions_of};
use numbers::fault::Fault;

pub fn check_time(file: &[u8], block: Block, i: usize) -> Result<(), Refusal>
    requires within { Within (length file.now) block }
    requires i_lt_timecnt { i < block.timecnt }
    ensures { result ≡ check_time file.now block i }
{
    if i == 0 {
        return Ok(());
    }
    let times = transitions_of(block);
    let before = time_in(file, times, i - 1);
    let time = time_in(file, times, i);
    demand(
        before < time,
        Fault::TzifTime as u8,
        block.begin + i * block.width,
    )
}

pub fn check_index(file: &[u8], block: Block, i: usize) -> Result<(), Refusal>
    requires within { Within (length file.now) block }
    requires i_lt_timecnt { i < block.timecnt }
    ensures { result ≡ check_index file.now block i }
{
    let place = indices_of(block) + i;
    let index = octet(file, place);
    demand(index < block.typecnt, Fault::TzifType as u8, place)
}

// Behind the last NUL of the designations, by its index.
pub fn nul_end(file: &[u8], block: Block) -> usize
    requires { Within (length file.now) block }
    ensures { result ≡ nul_end file.now block }
{
    let place = designations_of(block);
    for n in (0..block.charcnt).rev() {
        let byte = octet(file, place + n);
        if byte == 0 {
            return n + 1;
        }
    }
    0
}

pub fn check_type(file: &[u8], block: Block, nul: usize, i: usize) -> Result<(), Refusal>
    requires within { Within (length file.now) block }
    requires i_lt_typecnt { i < block.typecnt }
    ensures { result ≡ check_type file.now block nul i }
{
    let place = types_of(block) + 6 * i;
    let utoff = be32(file, place);
    let isdst = octet(file, place + 4);
    let desigidx = octet(file, place + 5);
    demand(utoff != 0x8000_0000, Fault::TzifOffset as u8, place)?;
    demand(isdst < 2, Fault::TzifDaylight as u8, place + 4)?;
    demand(desigidx < block.charcnt, Fault::TzifIndex as u8, place + 5)?;
    demand(desigidx < nul, Fault::TzifDesignation as u8, place + 5)
}

pub fn check_standard(file: &[u8], block: Block, i: usize) -> Result<(), Refusal>
    requires within { Within (length file.now) block }
    requires i_lt_isstdcnt { i < block.isstdcnt }
    ensures { result ≡ check_standard file.now block i }
{
    let place = standards_of(block) + i;
    let indicator = octet(file, place);
    demand(indicator < 2, Fault::TzifStandard as u8, place)
}

fn is_standard(file: &[u8], block: Block, i: usize) -> bool
    requires { Within (length file.now) block }
    ensures { result ≡ is_standard file.now block i }
{
    if block.isstdcnt <= i {
        return false;
    }
    octet(file, standards_of(block) + i) == 1
}

pub fn check_ut(file: &[u8], block: Block, i: usize) -> Result<(), Refusal>
    requires within { Within (length file.now) block }
    requires i_lt_isutcnt { i < block.isutcnt }
    ensures { result ≡ check_ut file.now block i }
{
    let place = uts_of(block) + i;
    let indicator = octet(file, place);
    let most = if is_standard(file, block, i) { 2 } else { 1 };
    demand(indicator < most, Fault::TzifUt as u8, place)
}
