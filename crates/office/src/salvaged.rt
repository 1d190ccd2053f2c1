// Salvage of a damaged file, for C.
ghost use Rattle.std.specs.Prelude.{length, ◌≡◌, [], ◌∷◌};
ghost use Rattle.salvage.specs.Salvage.{salvaged};
ghost use Rattle.numbers.specs.Spoken.{said_of, spoken};
ghost use Rattle.office.specs.Salvaged.{counts_values, salvage_spoken};

use numbers::refusal::Refusal;
use numbers::said::{Said, say_refused, speak};
use salvage::rescue::reply::{Counts, salvage};

fn say_rescued(rescued: Result<Counts, Refusal>) -> Said
    ensures { result ≡ said_of counts_values rescued }
{
    match rescued {
        Ok(counts) => Said {
            number: 0,
            words: [
                counts.size as u64,
                counts.lines as u64,
                counts.kept as u64,
                0,
                0,
            ],
        },
        Err(why) => say_refused(why),
    }
}

// Salvages a file. Values: the new file's length, the list's lines, the entries kept.
// Stays apart: C calls it by its name, with these parameters.
pub fn uskelzar_salvage(
    file: &[u8],
    dropped: &mut [u32],
    out: &mut [u8],
    reply: &mut [u64; 5],
) -> u8
    ensures { spoken result reply.new (dropped.new ∷ out.new ∷ [])
        ≡ salvage_spoken (salvaged file.now (length dropped.old) (length out.old)) }
{
    speak(say_rescued(salvage(file, dropped, out)), reply)
}
