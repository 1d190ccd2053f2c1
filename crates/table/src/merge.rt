// Merging in place: hits with one metadata id become one match, where the first of them stood in order.
ghost use mathlib.Core.{Path.{◌≡◌}, List.{◌++◌}};
ghost use Rattle.std.specs.Prelude.{◌+◌, ◌/◌, ◌^◌, ◌<◌, ◌≤◌, length, take, drop};
ghost use Rattle.numbers.specs.Lists.{padded};
ghost use Rattle.table.specs.{Hits.{width, words, slots, Real}, Merge.{later, ◌⊕◌, single, summary, group_kind, merged, tallied, cleared}};

use crate::codes::{EXCLUDED, IN_ZONE, NO_KIND};
use crate::hits::{Hit, WIDTH, hit_at, none, put_hit, room};

// What a group comes to: how many hits are inside and excluded, and the last border verdict, 0 if there is none.
#[derive(Clone, Copy)]
pub struct Tally {
    pub inside: u64,
    pub excluded: u64,
    pub border: u32,
}

// The later of two border verdicts, if there is one.
fn later(first: u32, second: u32) -> u32
    ensures { result ≡ later first second }
{
    if second == NO_KIND { first } else { second }
}

// One more hit in a group.
fn joined(t: Tally, kind: u32) -> Tally
    requires { (t.inside + 1 < 2 ^ 64) × (t.excluded + 1 < 2 ^ 64) }
    ensures sum { tallied result ≡ tallied t ⊕ single kind }
    ensures small { (result.inside ≤ t.inside + 1) × (result.excluded ≤ t.excluded + 1) }
{
    let inside = t.inside;
    let excluded = t.excluded;
    let border = t.border;
    if kind == IN_ZONE {
        return Tally {
            inside: inside + 1,
            excluded,
            border,
        };
    }
    if kind == EXCLUDED {
        return Tally {
            inside,
            excluded: excluded + 1,
            border,
        };
    }
    Tally {
        inside,
        excluded,
        border: later(border, kind),
    }
}

// The group of an id is taken out of the list: its hits are cleared, and their tally is what is left of them.
fn gather(hits: &mut [u32], from: usize, id: u32) -> Tally
    requires { (hits.old ≡ words (slots hits.old)) × (from ≤ length (slots hits.old)) }
    ensures sum { tallied result ≡ summary id (drop from (slots hits.old)) }
    ensures cleared { hits.new ≡ words (take from (slots hits.old) ++ cleared id (drop from (slots hits.old))) }
{
    let room = room(hits);
    let mut t = Tally {
        inside: 0,
        excluded: 0,
        border: 0,
    };
    for j in from..room {
        let hit = hit_at(hits, j);
        if hit.metadata == id {
            t = joined(t, hit.kind);
            put_hit(hits, j, none());
        }
    }
    t
}

// The last border verdict; with none, InZone where the counts differ; 0 drops the group.
fn kind_of(t: Tally) -> u32
    ensures { result ≡ group_kind (tallied t) }
{
    if t.border != NO_KIND {
        return t.border;
    }
    if t.inside != t.excluded {
        return IN_ZONE;
    }
    NO_KIND
}

// Every slot holds a hit. The matches go to the front, and the rest is cleared.
fn merge(hits: &mut [u32]) -> usize
    requires { (hits.old ≡ words (slots hits.old)) × Real (slots hits.old) }
    ensures { (result ≡ length (merged (slots hits.old))) × (hits.new ≡ padded (length hits.old) (words (merged (slots hits.old)))) }
{
    let room = room(hits);
    let mut out = 0;
    for i in 0..room {
        let hit = hit_at(hits, i);
        if hit.kind != NO_KIND {
            let kind = kind_of(gather(hits, i, hit.metadata));
            if kind != NO_KIND {
                put_hit(
                    hits,
                    out,
                    Hit {
                        polygon: hit.polygon,
                        metadata: hit.metadata,
                        kind,
                        place: hit.place,
                    },
                );
                out += 1;
            }
        }
    }
    out
}

// The same for a list with so many hits at its front and zeros after them.
// Stays a length: here the list is cut, and the clause speaks of the zeros behind.
pub fn merge_front(hits: &mut [u32], count: usize) -> usize
    requires { (count ≤ length hits.old / width)
        × (hits.old ≡ padded (length hits.old) (words (take count (slots hits.old))))
        × Real (take count (slots hits.old)) }
    ensures { (result ≡ length (merged (take count (slots hits.old))))
        × (hits.new ≡ padded (length hits.old) (words (merged (take count (slots hits.old))))) }
{
    let words = WIDTH * count;
    merge(&mut hits[..words])
}
