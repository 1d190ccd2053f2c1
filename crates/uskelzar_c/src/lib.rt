// The printer's functions for C, in libuskelzar.a: include/uskelzar.h has them. Each calls the library's function of its name and promises the same.
#![tactic(auto)]

pub mod civil;
pub mod many;
pub mod slips;
pub mod tiles;

ghost use Rattle.std.specs.Prelude.{length, ◌≡◌, [], ◌∷◌};
ghost use Rattle.atlas.specs.{Beside.{simply_beside}, Looked.{looked_atlas}};
ghost use Rattle.localtime.specs.Local.{local_time, scale_at};
ghost use Rattle.zones.specs.{Lookup.{looked_up, looked_strictly}, Simple.{simply_looked}};
ghost use Rattle.header.specs.Opening.{opened_of, opened_strictly};
ghost use Rattle.numbers.specs.Spoken.{spoken};
ghost use Rattle.uskelzar.specs.Spoken.{zones_values, described_values, opening_spoken, found_spoken, local_spoken};

// Opens a file. Values: type, version, precision, field count, bytes used.
#[unsafe(no_mangle)]
pub extern "C" fn uskelzar_open(file: &[u8], text: &mut [u8], reply: &mut [u64; 5]) -> u8
    ensures { spoken result reply.new (text.new ∷ []) ≡ opening_spoken (opened_of file.now (length text.old)) }
{
    uskelzar::uskelzar_open(file, text, reply)
}

// Looks a location up. Values: matches, end mark, safezone bits (0 if not asked), bytes used.
#[unsafe(no_mangle)]
pub extern "C" fn uskelzar_lookup(
    file: &[u8],
    lat: f32,
    lon: f32,
    asked: bool,
    hits: &mut [u32],
    text: &mut [u8],
    reply: &mut [u64; 5],
) -> u8
    ensures { spoken result reply.new (hits.new ∷ text.new ∷ [])
        ≡ found_spoken zones_values (looked_up file.now (record { lat = lat; lon = lon }) asked (length hits.old) (length text.old)) }
{
    uskelzar::uskelzar_lookup(file, lat, lon, asked, hits, text, reply)
}

// Looks a location's description up. Values: matches, end mark, 1 and its length where there is one, else 0.
#[unsafe(no_mangle)]
pub extern "C" fn uskelzar_simple_lookup(
    file: &[u8],
    lat: f32,
    lon: f32,
    hits: &mut [u32],
    text: &mut [u8],
    reply: &mut [u64; 5],
) -> u8
    ensures { spoken result reply.new (hits.new ∷ text.new ∷ [])
        ≡ found_spoken described_values (simply_looked file.now (record { lat = lat; lon = lon }) (length hits.old) (length text.old)) }
{
    uskelzar::uskelzar_simple_lookup(file, lat, lon, hits, text, reply)
}

// Looks a location up through an atlas. Values as for `uskelzar_lookup`.
#[unsafe(no_mangle)]
pub extern "C" fn uskelzar_lookup_atlas(
    file: &[u8],
    atlas: &[u32],
    lat: f32,
    lon: f32,
    asked: bool,
    hits: &mut [u32],
    text: &mut [u8],
    reply: &mut [u64; 5],
) -> u8
    ensures { spoken result reply.new (hits.new ∷ text.new ∷ [])
        ≡ found_spoken zones_values (looked_atlas file.now atlas.now (record { lat = lat; lon = lon }) asked (length hits.old) (length text.old)) }
{
    uskelzar::uskelzar_lookup_atlas(file, atlas, lat, lon, asked, hits, text, reply)
}

// Looks a location's description up through an atlas, or without one where there are no words. Values as above.
#[unsafe(no_mangle)]
pub extern "C" fn uskelzar_simple_atlas(
    file: &[u8],
    atlas: &[u32],
    lat: f32,
    lon: f32,
    hits: &mut [u32],
    text: &mut [u8],
    reply: &mut [u64; 5],
) -> u8
    ensures { spoken result reply.new (hits.new ∷ text.new ∷ [])
        ≡ found_spoken described_values (simply_beside file.now atlas.now (record { lat = lat; lon = lon }) (length hits.old) (length text.old)) }
{
    uskelzar::uskelzar_simple_atlas(file, atlas, lat, lon, hits, text, reply)
}

// Opens a file as `uskelzar_open` does, but refuses a number that the file's end cuts: 31.
#[unsafe(no_mangle)]
pub extern "C" fn uskelzar_open_strict(file: &[u8], text: &mut [u8], reply: &mut [u64; 5]) -> u8
    ensures { spoken result reply.new (text.new ∷ []) ≡ opening_spoken (opened_strictly file.now (length text.old)) }
{
    uskelzar::uskelzar_open_strict(file, text, reply)
}

// Looks a location up as `uskelzar_lookup` does, but refuses a number that the file's end cuts: 31.
#[unsafe(no_mangle)]
pub extern "C" fn uskelzar_lookup_strict(
    file: &[u8],
    lat: f32,
    lon: f32,
    asked: bool,
    hits: &mut [u32],
    text: &mut [u8],
    reply: &mut [u64; 5],
) -> u8
    ensures { spoken result reply.new (hits.new ∷ text.new ∷ [])
        ≡ found_spoken zones_values (looked_strictly file.now (record { lat = lat; lon = lon }) asked (length hits.old) (length text.old)) }
{
    uskelzar::uskelzar_lookup_strict(file, lat, lon, asked, hits, text, reply)
}

// Local time at an instant, by a TZif file and its TZ string. Values: 1 for UNIX time's scale or 2 for the file's own, the offset's 32 bits, the daylight flag, the abbreviation's length
// and the 32 bits of the correction; all 0 where it is unknown.
#[unsafe(no_mangle)]
pub extern "C" fn uskelzar_local_time(
    file: &[u8],
    instant: i64,
    text: &mut [u8],
    reply: &mut [u64; 5],
) -> u8
    ensures { spoken result reply.new (text.new ∷ [])
        ≡ local_spoken (scale_at file.now instant) (local_time file.now instant (length text.old)) }
{
    uskelzar::uskelzar_local_time(file, instant, text, reply)
}
