// Zeros over the lists that were worked in.
ghost use Rattle.std.specs.Prelude.{◌≡◌, length};
ghost use Rattle.numbers.specs.Lists.{zeros};
ghost use Rattle.draft.specs.Held.State.{Idle, works_as};

// All but the output.
pub fn rest_work(
    starts: &mut [u32],
    keys: &mut [u64],
    spare: &mut [u64],
    kept: &mut [u32],
    held: &mut [u8],
    words: &mut [u32],
    places: &mut [u32],
)
    ensures { Idle (works_as starts.old keys.old spare.old kept.old held.old words.old places.old)
        (works_as starts.new keys.new spare.new kept.new held.new words.new places.new) }
{
    starts.fill(0);
    keys.fill(0);
    spare.fill(0);
    kept.fill(0);
    held.fill(0);
    words.fill(0);
    places.fill(0);
}

// The output too.
pub fn rest(
    starts: &mut [u32],
    keys: &mut [u64],
    spare: &mut [u64],
    kept: &mut [u32],
    held: &mut [u8],
    words: &mut [u32],
    places: &mut [u32],
    out: &mut [u8],
)
    ensures { Idle (works_as starts.old keys.old spare.old kept.old held.old words.old places.old)
        (works_as starts.new keys.new spare.new kept.new held.new words.new places.new)
        × (out.new ≡ zeros (length out.old)) }
{
    rest_work(starts, keys, spare, kept, held, words, places);
    out.fill(0);
}
