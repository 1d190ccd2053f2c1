// What all matches say: each is asked in order, and their offsets are held against the first one's.
ghost use Rattle.std.specs.Prelude.{◌≤◌, ◌<◌, ◌/◌, length, take, ◌&&◌, ◌≡◌};
ghost use Rattle.verdict.specs.Edge.{same_z};
ghost use Rattle.slip.specs.{Hour.{hours_from}, Told.{Seen}};
ghost use Rattle.table.specs.{inner.Agreeing.{Agrees}, Hits.{width, slots}};

use crate::hour::{Spot, hour_of};
use header::header::Head;
use numbers::refusal::Refusal;
use request::read::Fix;
use table::hits::hit_at;

// The first match's, and whether all have its offset.
#[derive(Clone, Copy)]
pub struct All {
    pub first: Spot,
    pub agree: bool,
}

// Whether those before agree, and this one with the first.
fn still(agree: bool, spot: Spot, first: Spot) -> bool
    ensures { result ≡ (agree && same_z spot.offset first.offset) }
{
    agree && spot.offset == first.offset
}

// Of so many matches in the lent words, one at least.
pub(crate) fn hours_of(
    map: &[u8],
    head: Head,
    zones: &[u8],
    fix: Fix,
    hits: &[u32],
    count: usize,
) -> Result<All, Refusal>
    requires { (0 < count) × (count ≤ length hits.now / width) }
    ensures { Agrees (Seen map.now zones.now)
        (hours_from map.now head zones.now fix.instant 1 (take count (slots hits.now))) result }
{
    let first = hour_of(map, head, zones, fix, 1, hit_at(hits, 0))?;
    let mut agree = true;
    for i in 1..count {
        let spot = hour_of(map, head, zones, fix, i + 1, hit_at(hits, i))?;
        agree = still(agree, spot, first);
    }
    Ok(All { first, agree })
}
