// The form in which firmware takes the library: functions of plain names over numbers and slices; include/uskelzar.h has them for C.
// Each returns 0 where it answers, with the answer's values in `reply`, or a refusal's number, with its cause and detail there.
// Stays, points 2, 5 and 7: C calls the functions `uskelzar_..` by their names, with these parameters.
// Stays, point 4: `say` is the generic form; `say_local` has an answer without values, and the scale beside it.
#![tactic(auto)]

pub mod civil;
pub mod many;
pub mod slips;
pub mod tiles;

ghost use Rattle.std.specs.Prelude.{ℕ, List, length, ◌≡◌, [], ◌∷◌};
ghost use Rattle.atlas.specs.{Beside.{simply_beside}, Looked.{looked_atlas}};
ghost use Rattle.localtime.specs.Local.{local_time, scale_at};
ghost use Rattle.zones.specs.{Lookup.{looked_up, looked_strictly}, Simple.{simply_looked}};
ghost use Rattle.header.specs.Opening.{opened_of, opened_strictly};
ghost use Rattle.numbers.specs.Lists.{padded};
ghost use Rattle.numbers.specs.Spoken.{said_of, refused_said, spoken};
ghost use Rattle.uskelzar.specs.Spoken.{opening_values, zones_values, described_values, local_values, local_reply, opening_spoken, found_spoken, local_spoken};

use atlas::lookup::lookup_atlas;
use atlas::simple::simple_atlas;
use header::opening::{Opening, open, open_strict};
use localtime::local::{Timed, local_time};
use numbers::refusal::{Refusal, refuse};
use numbers::said::{Said, say_refused, speak};
use table::location::Location;
use tzif::local::offset_bits;
use zones::lookup::{Zones, lookup, lookup_strict};
use zones::simple::{Described, simple_lookup};

// An answer that goes over to C in five words.
pub trait Values {
    ghost values: { Self → List ℕ };

    fn words(self) -> [u64; 5]
        ensures { result ≡ padded 5 (values self) };
}

// The answer's values, or the refusal.
pub fn say<V: Values>(answer: Result<V, Refusal>) -> Said
    ensures { result ≡ said_of V.values answer }
{
    match answer {
        Ok(found) => Said {
            number: 0,
            words: found.words(),
        },
        Err(why) => say_refused(why),
    }
}

impl Values for Opening {
    ghost values = { opening_values };

    fn words(self) -> [u64; 5] {
        let o = self;
        [
            o.kind as u64,
            o.version as u64,
            o.precision as u64,
            o.count as u64,
            o.used as u64,
        ]
    }
}

impl Values for Zones {
    ghost values = { zones_values };

    fn words(self) -> [u64; 5] {
        let z = self;
        [
            z.matches as u64,
            z.mark as u64,
            z.safezone as u64,
            z.used as u64,
            0,
        ]
    }
}

impl Values for Described {
    ghost values = { described_values };

    fn words(self) -> [u64; 5] {
        let matches = self.matches as u64;
        let mark = self.mark as u64;
        match self.description {
            Some(length) => [matches, mark, 1, length as u64, 0],
            None => [matches, mark, 0, 0, 0],
        }
    }
}

// Stays apart from `say`: an unknown answer has no values, and the scale stands beside it.
fn say_local(timed: Timed) -> Said
    ensures { result ≡ said_of (local_values timed.scale) (local_reply timed.time) }
{
    let scale = timed.scale;
    let found = match timed.time {
        Ok(found) => found,
        Err(why) => return say_refused(refuse(why.number, 0, why.detail as u64)),
    };
    let words = match found {
        Some(local) => [
            scale.kind as u64,
            offset_bits(local),
            local.daylight as u64,
            local.length as u64,
            scale.correction as u64,
        ],
        None => [0; 5],
    };
    Said { number: 0, words }
}

// Opens a file. Values: type, version, precision, field count, bytes used.
pub fn uskelzar_open(file: &[u8], text: &mut [u8], reply: &mut [u64; 5]) -> u8
    ensures { spoken result reply.new (text.new ∷ []) ≡ opening_spoken (opened_of file.now (length text.old)) }
{
    speak(say(open(file, text)), reply)
}

// Looks a location up. Values: matches, end mark, safezone bits (0 if not asked), bytes used.
pub fn uskelzar_lookup(
    file: &[u8],
    lat: f32,
    lon: f32,
    asked: bool,
    hits: &mut [u32],
    text: &mut [u8],
    reply: &mut [u64; 5],
) -> u8
    ensures { spoken result reply.new (hits.new ∷ text.new ∷ [])
        ≡ found_spoken zones_values (looked_up file.now (record { lat = lat; lon = lon }) asked (length hits.old) (length text.old)) }
{
    speak(
        say(lookup(file, Location { lat, lon }, asked, hits, text)),
        reply,
    )
}

// Looks a location's description up. Values: matches, end mark, 1 and its length where there is one, else 0.
pub fn uskelzar_simple_lookup(
    file: &[u8],
    lat: f32,
    lon: f32,
    hits: &mut [u32],
    text: &mut [u8],
    reply: &mut [u64; 5],
) -> u8
    ensures { spoken result reply.new (hits.new ∷ text.new ∷ [])
        ≡ found_spoken described_values (simply_looked file.now (record { lat = lat; lon = lon }) (length hits.old) (length text.old)) }
{
    speak(
        say(simple_lookup(file, Location { lat, lon }, hits, text)),
        reply,
    )
}

// Looks a location up through an atlas. Values as for `uskelzar_lookup`.
pub fn uskelzar_lookup_atlas(
    file: &[u8],
    atlas: &[u32],
    lat: f32,
    lon: f32,
    asked: bool,
    hits: &mut [u32],
    text: &mut [u8],
    reply: &mut [u64; 5],
) -> u8
    ensures { spoken result reply.new (hits.new ∷ text.new ∷ [])
        ≡ found_spoken zones_values (looked_atlas file.now atlas.now (record { lat = lat; lon = lon }) asked (length hits.old) (length text.old)) }
{
    speak(
        say(lookup_atlas(file, atlas, Location { lat, lon }, asked, hits, text)),
        reply,
    )
}

// Looks a location's description up through an atlas, or without one where there are no words. Values as above.
pub fn uskelzar_simple_atlas(
    file: &[u8],
    atlas: &[u32],
    lat: f32,
    lon: f32,
    hits: &mut [u32],
    text: &mut [u8],
    reply: &mut [u64; 5],
) -> u8
    ensures { spoken result reply.new (hits.new ∷ text.new ∷ [])
        ≡ found_spoken described_values (simply_beside file.now atlas.now (record { lat = lat; lon = lon }) (length hits.old) (length text.old)) }
{
    speak(
        say(simple_atlas(file, atlas, Location { lat, lon }, hits, text)),
        reply,
    )
}

// Opens a file as `uskelzar_open` does, but refuses a number that the file's end cuts: 31.
pub fn uskelzar_open_strict(file: &[u8], text: &mut [u8], reply: &mut [u64; 5]) -> u8
    ensures { spoken result reply.new (text.new ∷ []) ≡ opening_spoken (opened_strictly file.now (length text.old)) }
{
    speak(say(open_strict(file, text)), reply)
}

// Looks a location up as `uskelzar_lookup` does, but refuses a number that the file's end cuts: 31.
pub fn uskelzar_lookup_strict(
    file: &[u8],
    lat: f32,
    lon: f32,
    asked: bool,
    hits: &mut [u32],
    text: &mut [u8],
    reply: &mut [u64; 5],
) -> u8
    ensures { spoken result reply.new (hits.new ∷ text.new ∷ [])
        ≡ found_spoken zones_values (looked_strictly file.now (record { lat = lat; lon = lon }) asked (length hits.old) (length text.old)) }
{
    speak(
        say(lookup_strict(file, Location { lat, lon }, asked, hits, text)),
        reply,
    )
}

// Local time at an instant, by a TZif file and its TZ string. Values: 1 for UNIX time's scale or 2 for the file's own, the offset's 32 bits, the daylight flag, the abbreviation's length
// and the 32 bits of the correction; all 0 where it is unknown.
pub fn uskelzar_local_time(file: &[u8], instant: i64, text: &mut [u8], reply: &mut [u64; 5]) -> u8
    ensures { spoken result reply.new (text.new ∷ [])
        ≡ local_spoken (scale_at file.now instant) (local_time file.now instant (length text.old)) }
{
    speak(say_local(local_time(file, instant, text)), reply)
}
