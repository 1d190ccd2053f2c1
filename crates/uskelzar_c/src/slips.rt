// The slip, for C: what a request means, where a zone's file lies in a bundle, and the printed line (document 03).
ghost use Rattle.std.specs.Prelude.{length, ◌≡◌, [], ◌∷◌};
ghost use Rattle.bundle.specs.{Bundle.{find_of}};
ghost use Rattle.request.specs.{Request.{request_of}};
ghost use Rattle.slip.specs.{Slip.{slipped, slipped_at}};
ghost use Rattle.numbers.specs.Spoken.{spoken};
ghost use Rattle.uskelzar.specs.Slips.{fix_values, file_values, reply_spoken, slip_spoken};

// What a request means. Values: the bits of latitude, longitude and instant.
#[unsafe(no_mangle)]
pub extern "C" fn uskelzar_request(request: &[u8], reply: &mut [u64; 5]) -> u8
    ensures { spoken result reply.new [] ≡ reply_spoken fix_values (request_of request.now) }
{
    uskelzar::slips::uskelzar_request(request, reply)
}

// A zone's file in a bundle, by its name. Values: where it begins, its length.
#[unsafe(no_mangle)]
pub extern "C" fn uskelzar_bundle_find(bundle: &[u8], name: &[u8], reply: &mut [u64; 5]) -> u8
    ensures { spoken result reply.new [] ≡ reply_spoken file_values (find_of bundle.now name.now) }
{
    uskelzar::slips::uskelzar_bundle_find(bundle, name, reply)
}

// The slip that a request asks for. Values: length of the line, matches, the offset's 32 bits.
#[unsafe(no_mangle)]
pub extern "C" fn uskelzar_slip(
    request: &[u8],
    map: &[u8],
    zones: &[u8],
    hits: &mut [u32],
    text: &mut [u8],
    out: &mut [u8],
    reply: &mut [u64; 5],
) -> u8
    ensures { spoken result reply.new (hits.new ∷ text.new ∷ out.new ∷ [])
        ≡ slip_spoken (slipped request.now map.now [] zones.now (length hits.old) (length text.old) (length out.old)) }
{
    uskelzar::slips::uskelzar_slip(request, map, zones, hits, text, out, reply)
}

// The slip that a request asks for, through the map's atlas, or without one where there are no words. Values as above.
#[unsafe(no_mangle)]
pub extern "C" fn uskelzar_slip_atlas(
    request: &[u8],
    map: &[u8],
    atlas: &[u32],
    zones: &[u8],
    hits: &mut [u32],
    text: &mut [u8],
    out: &mut [u8],
    reply: &mut [u64; 5],
) -> u8
    ensures { spoken result reply.new (hits.new ∷ text.new ∷ out.new ∷ [])
        ≡ slip_spoken (slipped request.now map.now atlas.now zones.now (length hits.old) (length text.old)
        (length out.old)) }
{
    uskelzar::slips::uskelzar_slip_atlas(request, map, atlas, zones, hits, text, out, reply)
}

// The slip at a place and an instant. Values as above.
#[unsafe(no_mangle)]
pub extern "C" fn uskelzar_slip_at(
    lat: f32,
    lon: f32,
    instant: i64,
    map: &[u8],
    zones: &[u8],
    hits: &mut [u32],
    text: &mut [u8],
    out: &mut [u8],
    reply: &mut [u64; 5],
) -> u8
    ensures { spoken result reply.new (hits.new ∷ text.new ∷ out.new ∷ [])
        ≡ slip_spoken (slipped_at (record { lat = lat; lon = lon; instant = instant }) map.now [] zones.now (length hits.old) (length text.old)
        (length out.old)) }
{
    uskelzar::slips::uskelzar_slip_at(lat, lon, instant, map, zones, hits, text, out, reply)
}

// The slip at a place and an instant, through the map's atlas, or without one where there are no words. Values as above.
#[unsafe(no_mangle)]
pub extern "C" fn uskelzar_slip_at_atlas(
    lat: f32,
    lon: f32,
    instant: i64,
    map: &[u8],
    atlas: &[u32],
    zones: &[u8],
    hits: &mut [u32],
    text: &mut [u8],
    out: &mut [u8],
    reply: &mut [u64; 5],
) -> u8
    ensures { spoken result reply.new (hits.new ∷ text.new ∷ out.new ∷ [])
        ≡ slip_spoken (slipped_at (record { lat = lat; lon = lon; instant = instant }) map.now atlas.now zones.now (length hits.old)
        (length text.old) (length out.old)) }
{
    uskelzar::slips::uskelzar_slip_at_atlas(
        lat, lon, instant, map, atlas, zones, hits, text, out, reply,
    )
}
