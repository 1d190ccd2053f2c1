// What a match says of the instant: its zone's file is found in the bundle and asked, and a clock is read.
ghost use Rattle.std.specs.Prelude.{◌≡◌, length, min, IfOk};
ghost use Rattle.calendar.specs.Civil.{civil_at};
ghost use Rattle.request.specs.Told as Q;
ghost use Rattle.slip.specs.Hour.{local_in, shown, hour_in, blamed, of_match, plainly, hour_of};
ghost use Rattle.slip.specs.Told.{name_in, hour_at, Stands};
ghost use Rattle.tzif.specs.Local.{Held};
ghost use Rattle.zones.specs.Simple.{LiesParts};

use crate::name::zone_of;
use bundle::find::find;
use calendar::civil::{Reading, civil_time};
use header::header::Head;
use localtime::local::answer_at;
use numbers::fault::Fault;
use numbers::refusal::{Refusal, refuse};
use request::read::Fix;
use table::hits::Hit;
use tzif::local::Found;
use zones::simple::Parts;

// The zone's name in the map, its abbreviation in the bundle, its offset, and what a clock shows.
#[derive(Clone, Copy)]
pub struct Spot {
    pub name: Parts,
    pub place: usize,
    pub size: usize,
    pub offset: i32,
    pub reading: Reading,
}

// A refusal of a zone's file has no cause of its own.
fn plainly(answer: Result<Option<Found>, tzif::refusal::Refusal>) -> Result<Option<Found>, Refusal>
    ensures { result ≡ plainly answer }
{
    answer.map_err(|why| refuse(why.number, 0, why.detail as u64))
}

// Local time by a zone's file; 91 where it reads the instant on its own scale.
fn local_in(file: &[u8], fix: Fix) -> Result<Found, Refusal>
    ensures { (result ≡ local_in file.now fix.instant) × IfOk result (Held (length file.now)) }
{
    let answered = answer_at(file, fix.instant);
    let scale = answered.scale;
    if scale.kind == 2 {
        return Err(Fault::LeapSeconds.alone());
    }
    let said = plainly(answered.said)?;
    said.ok_or(Fault::UnknownHour.alone())
}

// 61 outside the years 1 to 9999.
fn clock_of(fix: Fix, found: Found) -> Result<Reading, Refusal>
    ensures { result ≡ shown (civil_at fix.instant found.offset) }
{
    let civil = civil_time(fix.instant, found.offset);
    civil.ok_or(Fault::YearOutside.alone())
}

// By the file that the bundle has under a name.
fn hour_in(map: &[u8], zones: &[u8], fix: Fix, name: Parts) -> Result<Spot, Refusal>
    requires { LiesParts (length map.now) name }
    ensures { (Q.shown result (hour_at map.now zones.now) ≡ hour_in zones.now fix.instant (name_in map.now name))
        × IfOk result (Stands (length map.now) (length zones.now)) }
{
    let one = name.one;
    let two = name.two;
    let first = one.start;
    let second = two.start;
    let file = find(
        zones,
        &map[first..first + one.size],
        &map[second..second + two.size],
        0x80,
    )?;
    let start = file.start as usize;
    let end = start + file.length as usize;
    let found = local_in(&zones[start..end], fix)?;
    let reading = clock_of(fix, found)?;
    Ok(Spot {
        name,
        place: start + found.place,
        size: found.length,
        offset: found.offset,
        reading,
    })
}

// A match's number as a cause.
// Stays by hand: a number above 255 is 255, which no `From` and no `TryFrom` says.
fn cause_of(number: usize) -> u8
    ensures { result ≡ min number 255 }
{
    number.min(255) as u8
}

fn blame(why: Refusal, number: usize) -> Refusal
    ensures { result ≡ blamed number why }
{
    refuse(why.number, cause_of(number), why.detail)
}

// The first fault of a match is said with the match's number.
fn of_match(number: usize, answer: Result<Spot, Refusal>) -> Result<Spot, Refusal>
    ensures { result ≡ of_match number answer }
{
    answer.map_err(|why| blame(why, number))
}

// What the match with this number says.
pub(crate) fn hour_of(
    map: &[u8],
    head: Head,
    zones: &[u8],
    fix: Fix,
    number: usize,
    hit: Hit,
) -> Result<Spot, Refusal>
    ensures { (Q.shown result (hour_at map.now zones.now) ≡ hour_of map.now head zones.now fix.instant number hit)
        × IfOk result (Stands (length map.now) (length zones.now)) }
{
    let name = zone_of(map, head, hit.metadata)?;
    of_match(number, hour_in(map, zones, fix, name))
}
