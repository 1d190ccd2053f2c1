// A whole file: refusals 1 and 40 to 59, the first fault in file order.
ghost use Rattle.std.specs.Prelude.{◌≡◌, ◌<◌, length};
ghost use Rattle.tzif.specs.{Block.{Within}, Header.{rfc9636}, Zone.{newline_at, read_footer, read_short, read_long, read_zone}};

use crate::block::Block;
use crate::header::read_block;
use crate::number::octet;
use crate::place::end_of;
use crate::refusal::{Refusal, demand};
use crate::text::run_to;
use numbers::fault::Fault;
use numbers::limits::LARGEST_FILE;

// What the checks of a file leave: its version's octet, the block that answers, the place and length of its TZ string.
#[derive(Clone, Copy)]
pub struct Zone {
    pub version: usize,
    pub block: Block,
    pub string: usize,
    pub size: usize,
}

fn newline_at(file: &[u8], at: usize) -> bool
    ensures { result ≡ newline_at file.now at }
{
    if file.len() <= at {
        return false;
    }
    octet(file, at) == 10
}

fn read_footer(file: &[u8], at: usize) -> Result<usize, Refusal>
    ensures { result ≡ read_footer file.now at }
{
    demand(newline_at(file, at), Fault::TzifFooter as u8, at)?;
    let place = at + 1;
    let size = run_to(10, file, place, file.len() - place);
    let stop = place + size;
    demand(newline_at(file, stop), Fault::TzifFooter as u8, stop)?;
    let end = stop + 1;
    demand(file.len() <= end, Fault::TzifRest as u8, end)?;
    Ok(size)
}

// Version 1.
fn read_short(file: &[u8], block: Block) -> Result<Zone, Refusal>
    requires { Within (length file.now) block }
    ensures { result ≡ read_short file.now block }
{
    let end = end_of(block);
    demand(file.len() <= end, Fault::TzifRest as u8, end)?;
    Ok(Zone {
        version: 0,
        block,
        string: end,
        size: 0,
    })
}

// Later versions.
fn read_long(file: &[u8], first: Block) -> Result<Zone, Refusal>
    requires within { Within (length file.now) first }
    requires in_bounds { 4 < length file.now }
    ensures { result ≡ read_long rfc9636 file.now first }
{
    let block = read_block(file, true, end_of(first))?;
    let end = end_of(block);
    let size = read_footer(file, end)?;
    let version = octet(file, 4);
    let string = end + 1;
    Ok(Zone {
        version,
        block,
        string,
        size,
    })
}

pub fn read_zone(file: &[u8]) -> Result<Zone, Refusal>
    ensures { result ≡ read_zone file.now }
{
    demand(file.len() <= LARGEST_FILE, Fault::FileTooLarge as u8, 0)?;
    let first = read_block(file, false, 0)?;
    if octet(file, 4) == 0 {
        return read_short(file, first);
    }
    read_long(file, first)
}
