// The TZ string of a file: refusal 60, and what it says of an instant.
ghost use Rattle.std.specs.Prelude.{IfOk, ◌≡◌, ◌^◌, ◌≤◌, length};
ghost use Rattle.localtime.specs.Local.{ask_in, agrees, string_in, rules_in, Sound, HeldRules, HeldAsked};
ghost use Rattle.tzrule.specs.inner.String.{IsTz};

use crate::found::{found_of, same_found};
use numbers::fault::Fault;
use tzif::block::Block;
use tzif::leap::correction_at;
use tzif::local::{type_behind, type_in};
use tzif::place::end_of;
use tzif::refusal::{Refusal, demand, refuse};
use tzif::times::{time_in, transitions_of};
use tzif::zone::Zone;
use tzrule::ask::{Time, ask_at};
use tzrule::rule::Tz;
use tzrule::string::string_at;

// What the string says of an instant of the file's own scale.
pub(crate) fn ask_in(file: &[u8], block: Block, tz: Tz, instant: usize) -> Option<Time>
    requires { Sound file.now block × IsTz (length file.now) tz }
    ensures { (result ≡ ask_in file.now block tz instant) × HeldAsked (length file.now) result }
{
    let correction = correction_at(file, block, instant);
    ask_at(tz, instant, correction)
}

// Whether the string agrees with the last transition.
// Stays a function: no equality, but a test of the file.
fn agrees(file: &[u8], block: Block, tz: Tz) -> bool
    requires { Sound file.now block × IsTz (length file.now) tz }
    ensures { result ≡ agrees file.now block tz }
{
    let count = block.timecnt;
    if count == 0 {
        return true;
    }
    let last = time_in(file, transitions_of(block), count - 1);
    let Some(time) = ask_in(file, block, tz, last) else {
        return true;
    };
    let found = type_in(file, block, type_behind(file, block, count));
    same_found(file, found, found_of(time))
}

// The TZ string of a checked file, with its hours wider from version 3 on.
fn string_in(file: &[u8], zone: Zone) -> Result<Tz, Refusal>
    requires { (length file.now ≤ 2 ^ 30) × (zone.string ≤ length file.now) }
    ensures { (result ≡ string_in file.now zone) × IfOk result (IsTz (length file.now)) }
{
    match string_at(file, zone.string, 50 < zone.version) {
        Ok(at) => Ok(at.tz),
        Err(at) => Err(refuse(Fault::TzifString, at.place)),
    }
}

// The rule of a checked file; none without a TZ string.
pub(crate) fn rules_in(file: &[u8], zone: Zone) -> Result<Option<Tz>, Refusal>
    requires { Sound file.now zone.block × (length file.now ≤ 2 ^ 30) × (zone.string ≤ length file.now) }
    ensures { (result ≡ rules_in file.now zone) × IfOk result (HeldRules (length file.now)) }
{
    if zone.size == 0 {
        return Ok(None);
    }
    let tz = string_in(file, zone)?;
    demand(
        agrees(file, zone.block, tz),
        Fault::TzifString as u8,
        end_of(zone.block),
    )?;
    Ok(Some(tz))
}
