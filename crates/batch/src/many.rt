// Many fixes: matches and texts one after the other in the lent lists, and of each fix its match count, end mark and safezone bits in a third.
// Stays, point 7: `asked` is the caller's question; a const parameter would compile each loop twice (8 kB more, docs/DECISIONS.md).
// Stays, points 5 and 6: C lends coordinates, hits, text, answers as lists of their own, no heap holds others, and any header goes with any file.
ghost use Rattle.std.specs.Prelude.{◌*◌, ◌^◌, ◌≤◌, ◌<◌, length, ◌≡◌, true, [], ◌∷◌};
ghost use Rattle.numbers.specs.Lists.{zeros, over};
ghost use Rattle.atlas.specs.Beside.{zones_beside};
ghost use Rattle.zones.specs.Lent.{replied, replied_of};
ghost use Rattle.batch.specs.Many.{is_taken, answer_words, fixes_of, nothing, each_of, told_many, left, left_of, many_beside, looked_up_many};

use crate::zero::zero_all;
use atlas::lookup::lookup_beside;
use header::header::{Head, head_of};
use numbers::fault::Fault;
use numbers::refusal::Refusal;
use table::hits::WIDTH;
use table::location::Location;
use zones::lookup::Zones;

pub const MOST_FIXES: usize = 4096;

// The third list has so many words of each fix.
pub const ANSWER_WORDS: usize = 3;

// How many fixes, how many matches in all, and how much of the text is used.
#[derive(Clone, Copy)]
pub struct Totals {
    pub fixes: usize,
    pub matches: usize,
    pub used: usize,
}

// The first refusal, and the index of the fix that met it.
#[derive(Clone, Copy)]
pub struct Stop {
    pub index: usize,
    pub why: Refusal,
}

fn is_taken(lats: usize, lons: usize, third: usize) -> bool
    ensures { result ≡ is_taken lats lons third }
{
    lats == lons && lats <= MOST_FIXES && ANSWER_WORDS * lats <= third
}

// What one fix was answered, at the front of what remains of the third list.
fn put_answer(answers: &mut [u32], zones: Zones)
    requires { (3 ≤ length answers.old) × (zones.matches < 2 ^ 32) }
    ensures { answers.new ≡ over (answer_words (zones ∷ [])) answers.old }
{
    answers[0] = zones.matches as u32;
    answers[1] = zones.mark as u32;
    answers[2] = zones.safezone;
}

// Room for a fix of nearly every map.
const WINDOW_WORDS: usize = 256;

const WINDOW_BYTES: usize = 4096;

// One fix, in lists that are zero: first at their front alone, so that many fixes do not each clear all the room that is left. What is answered
// there is answered alike in all of it.
fn answer_one(
    file: &[u8],
    head: Head,
    words: &[u32],
    location: Location,
    asked: bool,
    hits: &mut [u32],
    text: &mut [u8],
) -> Result<Zones, Refusal>
    requires { (hits.old ≡ zeros (length hits.old)) × (text.old ≡ zeros (length text.old)) }
    ensures { replied result hits.new text.new
        ≡ replied_of (length hits.old) (length text.old)
        (zones_beside file.now head words.now location asked (length hits.old) (length text.old)) }
{
    let slots = hits.len().min(WINDOW_WORDS);
    let bytes = text.len().min(WINDOW_BYTES);
    let front = lookup_beside(
        file,
        head,
        words,
        location,
        asked,
        &mut hits[..slots],
        &mut text[..bytes],
    );
    if front.is_err() {
        return lookup_beside(file, head, words, location, asked, hits, text);
    }
    front
}

// In lists that are zero and go together.
fn answer_each(
    file: &[u8],
    head: Head,
    words: &[u32],
    lats: &[f32],
    lons: &[f32],
    asked: bool,
    hits: &mut [u32],
    text: &mut [u8],
    answers: &mut [u32],
) -> Result<Totals, Stop>
    requires { (is_taken (length lats.now) (length lons.now) (length answers.old) ≡ true)
        × (hits.old ≡ zeros (length hits.old)) × (text.old ≡ zeros (length text.old)) × (answers.old ≡ zeros (length answers.old)) }
    ensures { left (told_many result) hits.new text.new answers.new
        ≡ left_of (length hits.old) (length text.old) (length answers.old)
        (each_of (λ fix. zones_beside file.now head words.now fix asked) (length hits.old) (length text.old)
        (fixes_of lats.now lons.now) nothing) }
{
    let mut matches = 0;
    let mut used = 0;
    for i in 0..lats.len() {
        let location = Location {
            lat: lats[i],
            lon: lons[i],
        };
        let at = WIDTH * matches;
        let zones = match answer_one(
            file,
            head,
            words,
            location,
            asked,
            &mut hits[at..],
            &mut text[used..],
        ) {
            Ok(zones) => zones,
            Err(why) => {
                zero_all(hits, text, answers);
                return Err(Stop { index: i, why });
            }
        };
        let told = ANSWER_WORDS * i;
        put_answer(&mut answers[told..], zones);
        matches += zones.matches;
        used += zones.used;
    }
    Ok(Totals {
        fixes: lats.len(),
        matches,
        used,
    })
}

// Through an atlas, or without one where there are no words; any words are taken. Refusal 33 comes before everything else; then those of opening, with index 0; then that of the
// first fix that is refused.
pub fn many_atlas(
    file: &[u8],
    words: &[u32],
    lats: &[f32],
    lons: &[f32],
    asked: bool,
    hits: &mut [u32],
    text: &mut [u8],
    answers: &mut [u32],
) -> Result<Totals, Stop>
    ensures { left (told_many result) hits.new text.new answers.new
        ≡ many_beside file.now words.now lats.now lons.now asked (length hits.old) (length text.old)
        (length answers.old) }
{
    zero_all(hits, text, answers);
    if !is_taken(lats.len(), lons.len(), answers.len()) {
        return Err(Stop {
            index: 0,
            why: Fault::BadFixes.alone(),
        });
    }
    let head = match head_of(file) {
        Ok(head) => head,
        Err(why) => return Err(Stop { index: 0, why }),
    };
    answer_each(file, head, words, lats, lons, asked, hits, text, answers)
}

pub fn lookup_many(
    file: &[u8],
    lats: &[f32],
    lons: &[f32],
    asked: bool,
    hits: &mut [u32],
    text: &mut [u8],
    answers: &mut [u32],
) -> Result<Totals, Stop>
    ensures { left (told_many result) hits.new text.new answers.new
        ≡ looked_up_many file.now lats.now lons.now asked (length hits.old) (length text.old) (length answers.old) }
{
    let atlas = [0u32; 0];
    many_atlas(file, &atlas, lats, lons, asked, hits, text, answers)
}
