// The tile index at a fix, for C: held against the file, and lookups through it.
// Stays, points 2, 5 and 7: C calls each of these by its name, with these parameters.
ghost use Rattle.std.specs.Prelude.{length, ◌≡◌, [], ◌∷◌};
ghost use Rattle.index.specs.{Through.{looked_through, looked_indexed}, Tied.{tied_of}};
ghost use Rattle.numbers.specs.Spoken.{said_of, no_values, spoken};
ghost use Rattle.uskelzar.specs.Spoken.{zones_values, found_spoken};

use crate::say;
use index::lookup::{lookup_indexed, lookup_through};
use index::tied::{index_tied, say_tied};
use numbers::said::speak;
use table::location::Location;

// Holds an index against a file: 0 where it keeps the file's length, header and table; records, starts and lists are believed. No values.
pub fn uskelzar_index_tied(file: &[u8], index: &[u32], reply: &mut [u64; 5]) -> u8
    ensures { spoken result reply.new [] ≡ record { said = said_of no_values (tied_of file.now index.now); lent = [] } }
{
    speak(say_tied(index_tied(file, index)), reply)
}

// Looks a location up through an index that is not held against the file first. Values as for `uskelzar_lookup`.
pub fn uskelzar_lookup_through(
    file: &[u8],
    index: &[u32],
    lat: f32,
    lon: f32,
    asked: bool,
    hits: &mut [u32],
    text: &mut [u8],
    reply: &mut [u64; 5],
) -> u8
    ensures { spoken result reply.new (hits.new ∷ text.new ∷ [])
        ≡ found_spoken zones_values (looked_through file.now index.now (record { lat = lat; lon = lon }) asked (length hits.old) (length text.old)) }
{
    speak(
        say(lookup_through(file, index, Location { lat, lon }, asked, hits, text)),
        reply,
    )
}

// Holds the index against the file, then looks up through it.
pub fn uskelzar_lookup_indexed(
    file: &[u8],
    index: &[u32],
    lat: f32,
    lon: f32,
    asked: bool,
    hits: &mut [u32],
    text: &mut [u8],
    reply: &mut [u64; 5],
) -> u8
    ensures { spoken result reply.new (hits.new ∷ text.new ∷ [])
        ≡ found_spoken zones_values (looked_indexed file.now index.now (record { lat = lat; lon = lon }) asked (length hits.old) (length text.old)) }
{
    speak(
        say(lookup_indexed(file, index, Location { lat, lon }, asked, hits, text)),
        reply,
    )
}
