// Local time from a file: offset, daylight flag and abbreviation by its transitions.
// Stays, point 1: `daylight` is an octet of the file and a word of the reply that C gets.
ghost use Rattle.std.specs.Prelude.{IfOk, IfSome, ◌≡◌, ◌+◌, ◌≤◌, ◌<◌, length};
ghost use mir.{Syntax.{w32}, Val.{of_z}};
ghost use Rattle.numbers.specs.Lists.{zeros};
ghost use Rattle.tzif.specs.{Header.{rfc9636}, Local.{type_in, type_behind, is_after_last, by_table, found_at, replied, named, lent, local_time, Good, Held}};

use crate::block::Block;
use crate::number::{be32, lifted, octet, signed};
use crate::place::{designations_of, indices_of, types_of};
use crate::refusal::{Refusal, refuse};
use crate::text::{lend, run_to};
use crate::times::{last_not_after, time_in, transitions_of};
use crate::zone::read_zone;
use numbers::fault::Fault;
use numbers::point::bits_of;

// A local time whose abbreviation stands in the file: seconds east of UT, 1 for daylight time and else 0, the place and length of the abbreviation.
#[derive(Clone, Copy)]
pub struct Found {
    pub offset: i32,
    pub daylight: u8,
    pub place: usize,
    pub length: usize,
}

// A local time whose abbreviation stands at the start of the lent text, so long.
#[derive(Clone, Copy)]
pub struct Local {
    pub offset: i32,
    pub daylight: u8,
    pub length: usize,
}

// The offset's 32 bits.
// Stays apart: one of equal shape takes another type's number (office).
pub fn offset_bits(local: Local) -> u64
    ensures { result ≡ of_z w32 local.offset }
{
    bits_of(local.offset) as u64
}

// What a local time type's record says.
pub fn type_in(file: &[u8], block: Block, index: usize) -> Found
    requires good { Good file.now block }
    requires index_lt_typecnt { index < block.typecnt }
    ensures { result ≡ type_in file.now block index }
{
    let record = types_of(block) + 6 * index;
    let offset = signed(be32(file, record));
    let daylight = file[record + 4];
    let desigidx = octet(file, record + 5);
    let place = designations_of(block) + desigidx;
    let length = run_to(0, file, place, block.charcnt - desigidx);
    Found {
        offset,
        daylight,
        place,
        length,
    }
}

// The type behind so many transitions.
// Stays a length: `n` counts transitions, and is no list's.
pub fn type_behind(file: &[u8], block: Block, n: usize) -> usize
    requires good { Good file.now block }
    requires n_le_timecnt { n ≤ block.timecnt }
    ensures { result ≡ type_behind file.now block n }
{
    if n == 0 {
        return 0;
    }
    octet(file, indices_of(block) + (n - 1))
}

// Whether an instant, given more 2^63, is after the last of one or more transitions.
pub fn is_after_last(file: &[u8], block: Block, instant: usize) -> bool
    requires { Good file.now block }
    ensures { result ≡ is_after_last file.now block instant }
{
    if block.timecnt == 0 {
        return false;
    }
    time_in(file, transitions_of(block), block.timecnt - 1) < instant
}

// What the transitions say of an instant, given more 2^63.
pub fn by_table(file: &[u8], block: Block, instant: usize) -> Option<Found>
    requires { Good file.now block }
    ensures { result ≡ by_table file.now block instant }
{
    if is_after_last(file, block, instant) {
        return None;
    }
    let behind = last_not_after(file, transitions_of(block), instant);
    Some(type_in(file, block, type_behind(file, block, behind)))
}

pub fn clear(text: &mut [u8])
    ensures { text.new ≡ zeros (length text.old) }
{
    lend(b"", text);
}

// The reply to a local time that was found, with its abbreviation in the lent text.
pub fn reply_found(file: &[u8], found: Found, text: &mut [u8]) -> Result<Option<Local>, Refusal>
    requires { Held (length file.now) found }
    ensures { replied result text.new ≡ named file.now (length text.old) found }
{
    let place = found.place;
    let length = found.length;
    if text.len() < length {
        clear(text);
        return Err(refuse(Fault::TextFull, 0));
    }
    lend(&file[place..place + length], text);
    Ok(Some(Local {
        offset: found.offset,
        daylight: found.daylight,
        length,
    }))
}

// The reply to what a file says, with the abbreviation in the lent text.
pub fn reply(
    file: &[u8],
    said: Result<Option<Found>, Refusal>,
    text: &mut [u8],
) -> Result<Option<Local>, Refusal>
    requires { IfOk said (λ answer. IfSome answer (Held (length file.now))) }
    ensures { replied result text.new ≡ lent file.now (length text.old) said }
{
    match said {
        Ok(Some(found)) => reply_found(file, found, text),
        Ok(None) => {
            clear(text);
            Ok(None)
        }
        Err(why) => {
            clear(text);
            Err(why)
        }
    }
}

// What the transitions of a file say of an instant.
fn found_at(file: &[u8], instant: i64) -> Result<Option<Found>, Refusal>
    ensures { (result ≡ found_at rfc9636 file.now instant) × IfOk result (λ answer. IfSome answer (Held (length file.now))) }
{
    let zone = read_zone(file)?;
    Ok(by_table(file, zone.block, lifted(instant)))
}

// Local time at an instant, by a file that is checked first: none after its last transition, a refusal with the place that it blames.
pub fn local_time(file: &[u8], instant: i64, text: &mut [u8]) -> Result<Option<Local>, Refusal>
    ensures { replied result text.new ≡ local_time file.now instant (length text.old) }
{
    reply(file, found_at(file, instant), text)
}
