// The slip, for C: what a request means, where a zone's file lies in a bundle, and the printed line (document 03).
// Stays, points 2 and 5: C calls each of these by its name, with these parameters.
ghost use Rattle.std.specs.Prelude.{length, ◌≡◌, [], ◌∷◌};
ghost use Rattle.bundle.specs.{Bundle.{find_of}};
ghost use Rattle.request.specs.{Request.{request_of}};
ghost use Rattle.slip.specs.{Slip.{slipped, slipped_at}};
ghost use Rattle.numbers.specs.Spoken.{spoken};
ghost use Rattle.uskelzar.specs.Slips.{fix_values, file_values, stamped_values, reply_spoken, slip_spoken};

use crate::{Values, say};
use bundle::find::{File, find};
use numbers::float::bits::bits_of as float_bits;
use numbers::point::bits_of;
use numbers::said::speak;
use request::read::{Fix, read_request};
use slip::slip::{Stamped, slip, slip_at};

impl Values for Fix {
    ghost values = { fix_values };

    fn words(self) -> [u64; 5] {
        [
            u64::from(float_bits(self.lat)),
            u64::from(float_bits(self.lon)),
            self.instant.cast_unsigned(),
            0,
            0,
        ]
    }
}

impl Values for File {
    ghost values = { file_values };

    fn words(self) -> [u64; 5] {
        [self.start, self.length, 0, 0, 0]
    }
}

impl Values for Stamped {
    ghost values = { stamped_values };

    fn words(self) -> [u64; 5] {
        [
            self.length as u64,
            self.matches as u64,
            u64::from(bits_of(self.offset)),
            0,
            0,
        ]
    }
}

// What a request means. Values: the bits of latitude, longitude and instant.
pub fn uskelzar_request(request: &[u8], reply: &mut [u64; 5]) -> u8
    ensures { spoken result reply.new [] ≡ reply_spoken fix_values (request_of request.now) }
{
    speak(say(read_request(request)), reply)
}

// A zone's file in a bundle, by its name. Values: where it begins, its length.
pub fn uskelzar_bundle_find(bundle: &[u8], name: &[u8], reply: &mut [u64; 5]) -> u8
    ensures { spoken result reply.new [] ≡ reply_spoken file_values (find_of bundle.now name.now) }
{
    speak(say(find(bundle, &name[..0], name, 0)), reply)
}

// The slip that a request asks for. Values: length of the line, matches, the offset's 32 bits.
pub fn uskelzar_slip(
    request: &[u8],
    map: &[u8],
    zones: &[u8],
    hits: &mut [u32],
    text: &mut [u8],
    out: &mut [u8],
    reply: &mut [u64; 5],
) -> u8
    ensures { spoken result reply.new (hits.new ∷ text.new ∷ out.new ∷ [])
        ≡ slip_spoken (slipped request.now map.now [] zones.now (length hits.old) (length text.old) (length out.old)) }
{
    let atlas = [0u32; 0];
    speak(
        say(slip(request, map, &atlas, zones, hits, text, out)),
        reply,
    )
}

// The slip that a request asks for, through the map's atlas, or without one where there are no words. Values as above.
pub fn uskelzar_slip_atlas(
    request: &[u8],
    map: &[u8],
    atlas: &[u32],
    zones: &[u8],
    hits: &mut [u32],
    text: &mut [u8],
    out: &mut [u8],
    reply: &mut [u64; 5],
) -> u8
    ensures { spoken result reply.new (hits.new ∷ text.new ∷ out.new ∷ [])
        ≡ slip_spoken (slipped request.now map.now atlas.now zones.now (length hits.old) (length text.old)
        (length out.old)) }
{
    speak(
        say(slip(request, map, atlas, zones, hits, text, out)),
        reply,
    )
}

// The slip at a place and an instant. Values as above.
pub fn uskelzar_slip_at(
    lat: f32,
    lon: f32,
    instant: i64,
    map: &[u8],
    zones: &[u8],
    hits: &mut [u32],
    text: &mut [u8],
    out: &mut [u8],
    reply: &mut [u64; 5],
) -> u8
    ensures { spoken result reply.new (hits.new ∷ text.new ∷ out.new ∷ [])
        ≡ slip_spoken (slipped_at (record { lat = lat; lon = lon; instant = instant }) map.now [] zones.now (length hits.old) (length text.old)
        (length out.old)) }
{
    let fix = Fix { lat, lon, instant };
    let atlas = [0u32; 0];
    speak(
        say(slip_at(fix, map, &atlas, zones, hits, text, out)),
        reply,
    )
}

// The slip at a place and an instant, through the map's atlas, or without one where there are no words. Values as above.
pub fn uskelzar_slip_at_atlas(
    lat: f32,
    lon: f32,
    instant: i64,
    map: &[u8],
    atlas: &[u32],
    zones: &[u8],
    hits: &mut [u32],
    text: &mut [u8],
    out: &mut [u8],
    reply: &mut [u64; 5],
) -> u8
    ensures { spoken result reply.new (hits.new ∷ text.new ∷ out.new ∷ [])
        ≡ slip_spoken (slipped_at (record { lat = lat; lon = lon; instant = instant }) map.now atlas.now zones.now (length hits.old)
        (length text.old) (length out.old)) }
{
    let fix = Fix { lat, lon, instant };
    speak(say(slip_at(fix, map, atlas, zones, hits, text, out)), reply)
}
