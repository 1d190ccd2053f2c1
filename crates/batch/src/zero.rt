// The lent lists are zero before the first fix, and again where one is refused.
ghost use Rattle.std.specs.Prelude.{◌≡◌, length};
ghost use Rattle.numbers.specs.Lists.{zeros};

use header::field::zero;
use header::zero::zero_words;

// Stays parameters: C lends the three lists apart.
pub(crate) fn zero_all(hits: &mut [u32], text: &mut [u8], answers: &mut [u32])
    ensures { (hits.new ≡ zeros (length hits.old)) × (text.new ≡ zeros (length text.old))
        × (answers.new ≡ zeros (length answers.old)) }
{
    zero_words(hits);
    zero(text);
    zero_words(answers);
}
