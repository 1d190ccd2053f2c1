// Many fixes in one call, for C.
ghost use Rattle.std.specs.Prelude.{length, ◌≡◌, [], ◌∷◌};
ghost use Rattle.batch.specs.Many.{many_beside, looked_up_many};
ghost use Rattle.numbers.specs.Spoken.{spoken};
ghost use Rattle.uskelzar.specs.Many.{many_spoken};

// Looks many locations up. Values: fixes, matches in all, bytes used; of a refusal also the index of its fix, behind its detail.
#[unsafe(no_mangle)]
pub extern "C" fn uskelzar_lookup_many(
    file: &[u8],
    lats: &[f32],
    lons: &[f32],
    asked: bool,
    hits: &mut [u32],
    text: &mut [u8],
    answers: &mut [u32],
    reply: &mut [u64; 5],
) -> u8
    ensures { spoken result reply.new (hits.new ∷ text.new ∷ answers.new ∷ [])
        ≡ many_spoken (looked_up_many file.now lats.now lons.now asked (length hits.old) (length text.old) (length answers.old)) }
{
    uskelzar::many::uskelzar_lookup_many(file, lats, lons, asked, hits, text, answers, reply)
}

// Looks many locations up through an atlas, or without one where there are no words. Values as above.
#[unsafe(no_mangle)]
pub extern "C" fn uskelzar_many_atlas(
    file: &[u8],
    atlas: &[u32],
    lats: &[f32],
    lons: &[f32],
    asked: bool,
    hits: &mut [u32],
    text: &mut [u8],
    answers: &mut [u32],
    reply: &mut [u64; 5],
) -> u8
    ensures { spoken result reply.new (hits.new ∷ text.new ∷ answers.new ∷ [])
        ≡ many_spoken (many_beside file.now atlas.now lats.now lons.now asked (length hits.old) (length text.old)
        (length answers.old)) }
{
    uskelzar::many::uskelzar_many_atlas(file, atlas, lats, lons, asked, hits, text, answers, reply)
}
