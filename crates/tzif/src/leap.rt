// The rules for a leap-second record.
// Stays, point 7: `fourth` says whether the version is 4, a Bool of the definitions.
ghost use mathlib.Core.{Path.{◌≡◌}, Bool.{◌&&◌, ◌||◌}};
ghost use Rattle.std.specs.Prelude.{◌+◌, ◌-◌, ◌^◌, ◌≤◌, ◌<◌};
ghost use lib.{Dec.{ltb, leb, eqb}, ListN.{length}};
ghost use Rattle.tzif.specs.{Block.{Within}, Number.{Word}, Reply.{demand, refusal}, Times.{time_in, occurrences_of, Rises}};
ghost use Rattle.tzif.specs.Check.{leap_place, correction_of, occurs_later, correction_before, correction_at, one_apart, is_expiry, check_leap};

use crate::block::Block;
use crate::number::{be32, raised};
use crate::place::leaps_of;
use crate::refusal::{Refusal, demand};
use crate::times::{last_not_after, occurrences_of, time_in};
use numbers::fault::Fault;

fn leap_place(block: Block, i: usize) -> usize
    requires { (leap_place block i < 2 ^ 64) × (block.width + 4 < 2 ^ 64) }
    ensures { result ≡ leap_place block i }
{
    leaps_of(block) + i * (block.width + 4)
}

fn correction_of(file: &[u8], block: Block, i: usize) -> usize
    requires within { Within (length file.now) block }
    requires i_lt_leapcnt { i < block.leapcnt }
    ensures { Word result (correction_of file.now block i) }
{
    raised(be32(file, leap_place(block, i) + block.width))
}

// Whether a time is 28 days less a second, or more, above another.
fn spaced(before: usize, time: usize) -> bool
    ensures { result ≡ leb (before + 2419199) time }
{
    if time < 2_419_199 {
        return false;
    }
    before <= time - 2_419_199
}

fn occurs_later(file: &[u8], block: Block, i: usize) -> bool
    requires within { Within (length file.now) block }
    requires i_lt_leapcnt { i < block.leapcnt }
    ensures { result ≡ occurs_later file.now block i }
{
    let occurrences = occurrences_of(block);
    let occurrence = time_in(file, occurrences, i);
    if i == 0 {
        return 0x8000_0000_0000_0000 <= occurrence;
    }
    spaced(time_in(file, occurrences, i - 1), occurrence)
}

fn correction_before(file: &[u8], block: Block, i: usize) -> usize
    requires within { Within (length file.now) block }
    requires i_le_leapcnt { i ≤ block.leapcnt }
    ensures { Word result (correction_before file.now block i) }
{
    if i == 0 {
        return 0x8000_0000;
    }
    correction_of(file, block, i - 1)
}

// The correction, more 2^31, at an instant that is given more 2^63.
pub fn correction_at(file: &[u8], block: Block, instant: usize) -> usize
    requires within { Within (length file.now) block }
    requires rises { Rises file.now (occurrences_of block) }
    ensures { Word result (correction_at file.now block instant) }
{
    if block.leapcnt == 0 {
        return 0x8000_0000;
    }
    let behind = last_not_after(file, occurrences_of(block), instant);
    correction_before(file, block, behind)
}

fn one_apart(a: usize, b: usize) -> bool
    requires { (a < 2 ^ 32) × (b < 2 ^ 32) }
    ensures { result ≡ one_apart a b }
{
    if a == b + 1 {
        return true;
    }
    b == a + 1
}

// Whether a record is no leap second, but says when the table expires.
fn is_expiry(file: &[u8], block: Block, i: usize) -> bool
    requires within { Within (length file.now) block }
    requires i_lt_leapcnt { i < block.leapcnt }
    ensures { result ≡ is_expiry file.now block i }
{
    if i == 0 {
        return false;
    }
    if i + 1 < block.leapcnt {
        return false;
    }
    let correction = correction_of(file, block, i);
    let before = correction_of(file, block, i - 1);
    correction == before
}

// Whether a version 4 table ends here.
fn expires(file: &[u8], fourth: bool, block: Block, i: usize) -> bool
    requires within { Within (length file.now) block }
    requires i_lt_leapcnt { i < block.leapcnt }
    ensures { result ≡ (fourth && is_expiry file.now block i) }
{
    if fourth {
        return is_expiry(file, block, i);
    }
    false
}

// Whether a correction may follow the one before it, which is 0 before the first.
fn corrects(fourth: bool, i: usize, before: usize, correction: usize) -> bool
    requires { (before < 2 ^ 32) × (correction < 2 ^ 32) }
    ensures { result ≡ ((eqb i 0 && fourth) || one_apart before correction) }
{
    if i != 0 {
        return one_apart(before, correction);
    }
    if fourth {
        return true;
    }
    one_apart(before, correction)
}

// An expiry.
fn check_expiry(file: &[u8], block: Block, i: usize) -> Result<(), Refusal>
    requires within { Within (length file.now) block }
    requires i_nonzero { (0 < i) × (i < block.leapcnt) }
    ensures { result ≡ demand (ltb (time_in file.now (occurrences_of block) (i - 1)) (time_in file.now (occurrences_of block) i)) (refusal 54 (leap_place block i)) }
{
    let occurrences = occurrences_of(block);
    let before = time_in(file, occurrences, i - 1);
    let occurrence = time_in(file, occurrences, i);
    demand(
        before < occurrence,
        Fault::TzifOccurrence as u8,
        leap_place(block, i),
    )
}

pub(crate) fn check_leap(file: &[u8], fourth: bool, block: Block, i: usize) -> Result<(), Refusal>
    requires within { Within (length file.now) block }
    requires i_lt_leapcnt { i < block.leapcnt }
    ensures { result ≡ check_leap file.now fourth block i }
{
    if expires(file, fourth, block, i) {
        return check_expiry(file, block, i);
    }
    let place = leap_place(block, i);
    demand(
        occurs_later(file, block, i),
        Fault::TzifOccurrence as u8,
        place,
    )?;
    let before = correction_before(file, block, i);
    let correction = correction_of(file, block, i);
    let follows = corrects(fourth, i, before, correction);
    demand(follows, Fault::TzifCorrection as u8, place + block.width)
}
