// Local time from a file: by its transitions, and by its TZ string after the last one.
ghost use Rattle.std.specs.Prelude.{◌≡◌, length};
ghost use Rattle.localtime.specs.Local.{is_ruled, by_rule, answer_by, answer_at, local_time, scale_at, Sound, HeldRules, HeldAsked, HeldSaid};
ghost use Rattle.tzif.specs.{Header.{rfc9636}, Local.{replied, Good}, Reply.{refused}};

use crate::found::found_of;
use crate::rule::{ask_in, rules_in};
use crate::scale::{Scale, scale_in};
use numbers::fault::Fault;
use tzif::block::Block;
use tzif::local::{Found, Local, by_table, is_after_last, reply};
use tzif::number::lifted;
use tzif::refusal::{Refusal, refuse};
use tzif::zone::read_zone;
use tzrule::ask::Time;
use tzrule::rule::Tz;

// What the rule says.
fn by_rule(end: usize, asked: Option<Time>) -> Result<Option<Found>, Refusal>
    requires { HeldAsked end asked }
    ensures { (result ≡ by_rule asked) × HeldSaid end result }
{
    let Some(time) = asked else {
        return Err(refuse(Fault::YearOutside, 0));
    };
    Ok(Some(found_of(time)))
}

// Whether the rule is asked.
fn is_ruled(file: &[u8], block: Block, instant: usize) -> bool
    requires { Good file.now block }
    ensures { result ≡ is_ruled file.now block instant }
{
    if block.timecnt == 0 {
        return true;
    }
    is_after_last(file, block, instant)
}

// What a checked file says of an instant, given more 2^63.
fn answer_by(
    file: &[u8],
    block: Block,
    rules: Option<Tz>,
    instant: usize,
) -> Result<Option<Found>, Refusal>
    requires { Sound file.now block × HeldRules (length file.now) rules }
    ensures { (result ≡ answer_by file.now block rules instant) × HeldSaid (length file.now) result }
{
    if let Some(tz) = rules {
        if is_ruled(file, block, instant) {
            return by_rule(file.len(), ask_in(file, block, tz, instant));
        }
    }
    Ok(by_table(file, block, instant))
}

// What a file says of an instant, and the scale on which it was read.
#[derive(Clone, Copy)]
pub struct Answered {
    pub said: Result<Option<Found>, Refusal>,
    pub scale: Scale,
}

fn not_answered(why: Refusal) -> Answered
    ensures { (result.said ≡ refused why) × (result.scale ≡ record { kind = 0; correction = 0 }) }
{
    Answered {
        said: Err(why),
        scale: Scale {
            kind: 0,
            correction: 0,
        },
    }
}

// What a file says of an instant.
pub fn answer_at(file: &[u8], instant: i64) -> Answered
    ensures { (result.said ≡ answer_at rfc9636 file.now instant) × HeldSaid (length file.now) result.said × (result.scale ≡ scale_at file.now instant) }
{
    let zone = match read_zone(file) {
        Ok(zone) => zone,
        Err(why) => return not_answered(why),
    };
    let rules = match rules_in(file, zone) {
        Ok(rules) => rules,
        Err(why) => return not_answered(why),
    };
    let block = zone.block;
    let at = lifted(instant);
    let scale = scale_in(file, block, at);
    let said = answer_by(file, block, rules, at);
    Answered { said, scale }
}

// Local time, and the scale on which the instant was read.
#[derive(Clone, Copy)]
pub struct Timed {
    pub time: Result<Option<Local>, Refusal>,
    pub scale: Scale,
}

// Local time at an instant, by a file that is checked first.
pub fn local_time(file: &[u8], instant: i64, text: &mut [u8]) -> Timed
    ensures { (replied result.time text.new ≡ local_time file.now instant (length text.old)) × (result.scale ≡ scale_at file.now instant) }
{
    let answered = answer_at(file, instant);
    let time = reply(file, answered.said, text);
    Timed {
        time,
        scale: answered.scale,
    }
}
