// What an exported call says to C beside its lent output: a number, 0 where it answers, and the five words of `reply`.
// Stays, point 4: `say_refused` and `speak` are the definitions' words (specs/Spoken).
ghost use mathlib.Core.{Path.{◌≡◌}, List.{[]}};
ghost use Rattle.numbers.specs.Spoken.{refused_said, spoken};

use crate::refusal::Refusal;

// Stays a number: C gets it, and 0 is the answer's.
#[derive(Clone, Copy)]
pub struct Said {
    pub number: u8,
    pub words: [u64; 5],
}

pub fn say_refused(why: Refusal) -> Said
    ensures { result ≡ refused_said why }
{
    Said {
        number: why.number,
        words: [why.cause as u64, why.detail, 0, 0, 0],
    }
}

pub fn speak(said: Said, reply: &mut [u64; 5]) -> u8
    ensures { spoken result reply.new [] ≡ record { said = said; lent = [] } }
{
    let words = said.words;
    *reply = words;
    said.number
}
