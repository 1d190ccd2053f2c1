// The sum of some lengths, if it is no more than there is room for.
ghost use Rattle.std.specs.Prelude.{◌≡◌};
ghost use Rattle.edit.specs.inner.Changing.Sum.{SumsTo};

// Stays a length: `most` is a limit of the sum, not of the list.
pub(crate) fn sum_within(lengths: &[u32], most: usize) -> Option<usize>
    ensures { SumsTo lengths.now most result }
{
    let mut sum = 0;
    for length in lengths {
        let length = *length as usize;
        if most - sum < length {
            return None;
        }
        sum += length;
    }
    Some(sum)
}
