// Many fixes in one call, for C.
// Stays, points 2, 5, 6 and 7: C calls the functions `uskelzar_..` by their names, with these parameters.
// Stays, point 4: `say_many` has a word that `say` has not, the index of the refused fix.
ghost use Rattle.std.specs.Prelude.{length, ◌≡◌, [], ◌∷◌};
ghost use Rattle.batch.specs.Many.{told_many, many_beside, looked_up_many};
ghost use Rattle.numbers.specs.Spoken.{spoken};
ghost use Rattle.uskelzar.specs.Many.{many_said, many_spoken};

use batch::many::{Stop, Totals, lookup_many, many_atlas};
use numbers::said::{Said, speak};

// Stays apart from `say`: a refusal has the index of its fix.
fn say_many(many: Result<Totals, Stop>) -> Said
    ensures { result ≡ many_said (told_many many) }
{
    match many {
        Ok(totals) => Said {
            number: 0,
            words: [
                totals.fixes as u64,
                totals.matches as u64,
                totals.used as u64,
                0,
                0,
            ],
        },
        Err(stop) => {
            let why = stop.why;
            Said {
                number: why.number,
                words: [why.cause as u64, why.detail, stop.index as u64, 0, 0],
            }
        }
    }
}

// Looks many locations up. Values: fixes, matches in all, bytes used; of a refusal also the index of its fix, behind its detail.
pub fn uskelzar_lookup_many(
    file: &[u8],
    lats: &[f32],
    lons: &[f32],
    asked: bool,
    hits: &mut [u32],
    text: &mut [u8],
    answers: &mut [u32],
    reply: &mut [u64; 5],
) -> u8
    ensures { spoken result reply.new (hits.new ∷ text.new ∷ answers.new ∷ [])
        ≡ many_spoken (looked_up_many file.now lats.now lons.now asked (length hits.old) (length text.old) (length answers.old)) }
{
    speak(
        say_many(lookup_many(file, lats, lons, asked, hits, text, answers)),
        reply,
    )
}

// Looks many locations up through an atlas, or without one where there are no words. Values as above.
pub fn uskelzar_many_atlas(
    file: &[u8],
    atlas: &[u32],
    lats: &[f32],
    lons: &[f32],
    asked: bool,
    hits: &mut [u32],
    text: &mut [u8],
    answers: &mut [u32],
    reply: &mut [u64; 5],
) -> u8
    ensures { spoken result reply.new (hits.new ∷ text.new ∷ answers.new ∷ [])
        ≡ many_spoken (many_beside file.now atlas.now lats.now lons.now asked (length hits.old) (length text.old)
        (length answers.old)) }
{
    speak(
        say_many(many_atlas(file, atlas, lats, lons, asked, hits, text, answers)),
        reply,
    )
}
