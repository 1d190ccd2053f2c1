// A header and the data block behind it: refusals 40 to 57, the first fault in file order.
ghost use Rattle.std.specs.Prelude.{◌≡◌, ◌+◌, ◌^◌, ◌≤◌, ◌<◌};
ghost use lib.{Dec.{leb}, ListN.{length}};
ghost use Rattle.tzif.specs.{Block.{Within, end_of}, Number.{octet}};
ghost use Rattle.tzif.specs.Header.{rfc9636, begins, is_version, is_fourth, version_fits, check_header, block_at, Counted, none_or_all, check_counts, check_block, read_block};

use crate::block::Block;
use crate::check::{check_index, check_standard, check_time, check_type, check_ut, nul_end};
use crate::leap::check_leap;
use crate::number::{be32, octet, octets};
use crate::part::first_fault;
use crate::place::end_of;
use crate::refusal::{Refusal, demand};
use numbers::fault::Fault;

// Whether so many octets at a place lie within the file.
fn holds(length: usize, at: usize, size: usize) -> bool
    ensures { result ≡ leb (at + size) length }
{
    if length < size {
        return false;
    }
    at <= length - size
}

fn begins(file: &[u8], at: usize) -> bool
    ensures { result ≡ begins file.now at }
{
    if !holds(file.len(), at, 4) {
        return false;
    }
    be32(file, at) == 0x545A_6966
}

// Stays a function: a test, no conversion.
fn is_version(version: usize) -> bool
    ensures { result ≡ is_version rfc9636 version }
{
    if version == 0 {
        return true;
    }
    if version == 0x32 {
        return true;
    }
    if version == 0x33 {
        return true;
    }
    version == 0x34
}

fn version_fits(file: &[u8], wide: bool, at: usize) -> bool
    requires { at + 4 ≤ length file.now }
    ensures { result ≡ version_fits rfc9636 file.now wide at }
{
    if !holds(file.len(), at, 5) {
        return false;
    }
    let version = octet(file, at + 4);
    if wide {
        return version == octet(file, 4);
    }
    is_version(version)
}

fn check_header(file: &[u8], wide: bool, at: usize) -> Result<(), Refusal>
    ensures { result ≡ check_header rfc9636 file.now wide at }
{
    demand(begins(file, at), Fault::TzifMagic as u8, at)?;
    demand(
        version_fits(file, wide, at),
        Fault::TzifVersion as u8,
        at + 4,
    )?;
    demand(holds(file.len(), at, 44), Fault::TzifHeader as u8, at)
}

// The counts, unchecked.
fn read_counts(file: &[u8], wide: bool, at: usize) -> Block
    requires { at + 44 ≤ length file.now }
    ensures { Counted result (block_at file.now wide at) }
{
    let width = octets(wide);
    let isutcnt = be32(file, at + 20);
    let isstdcnt = be32(file, at + 24);
    let leapcnt = be32(file, at + 28);
    let timecnt = be32(file, at + 32);
    let typecnt = be32(file, at + 36);
    let charcnt = be32(file, at + 40);
    let begin = at + 44;
    Block {
        width,
        isutcnt,
        isstdcnt,
        leapcnt,
        timecnt,
        typecnt,
        charcnt,
        begin,
    }
}

// Stays apart: `is_stop` (text.rt) has its shape alone.
fn none_or_all(count: usize, all: usize) -> bool
    ensures { result ≡ none_or_all count all }
{
    if count == 0 {
        return true;
    }
    count == all
}

fn check_counts(file: &[u8], at: usize, block: Block) -> Result<(), Refusal>
    requires at_in_bounds { at + 44 ≤ length file.now }
    requires block_bound { end_of block < 2 ^ 64 }
    ensures { result ≡ check_counts file.now at block }
{
    let end = end_of(block);
    let some_ut = none_or_all(block.isutcnt, block.typecnt);
    let some_standard = none_or_all(block.isstdcnt, block.typecnt);
    demand(some_ut, Fault::TzifUts as u8, at + 20)?;
    demand(some_standard, Fault::TzifStandards as u8, at + 24)?;
    demand(block.typecnt != 0, Fault::TzifTypes as u8, at + 36)?;
    demand(block.charcnt != 0, Fault::TzifCharacters as u8, at + 40)?;
    demand(end <= file.len(), Fault::TzifBlock as u8, block.begin)
}

fn is_fourth(file: &[u8]) -> bool
    requires { 4 < length file.now }
    ensures { result ≡ is_fourth rfc9636 (octet file.now 4) }
{
    octet(file, 4) == 0x34
}

// Stays a flag: whether the version is 4, a Bool of the definitions.
fn check_block(file: &[u8], fourth: bool, block: Block) -> Result<(), Refusal>
    requires { Within (length file.now) block }
    ensures { result ≡ check_block file.now fourth block }
{
    let nul = nul_end(file, block);
    first_fault(block.timecnt, |i| check_time(file, block, i))?;
    first_fault(block.timecnt, |i| check_index(file, block, i))?;
    first_fault(block.typecnt, |i| check_type(file, block, nul, i))?;
    first_fault(block.leapcnt, |i| check_leap(file, fourth, block, i))?;
    first_fault(block.isstdcnt, |i| check_standard(file, block, i))?;
    first_fault(block.isutcnt, |i| check_ut(file, block, i))
}

// The block behind a header, if all of it is as the RFC requires.
pub fn read_block(file: &[u8], wide: bool, at: usize) -> Result<Block, Refusal>
    ensures { result ≡ read_block rfc9636 file.now wide at }
{
    check_header(file, wide, at)?;
    let block = read_counts(file, wide, at);
    check_counts(file, at, block)?;
    let fourth = is_fourth(file);
    check_block(file, fourth, block)?;
    Ok(block)
}
