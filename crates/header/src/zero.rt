// Lent buffers are zero before the answer goes in, and again where it is a refusal.
ghost use Rattle.std.specs.Prelude.{◌≡◌, length};
ghost use Rattle.numbers.specs.Lists.{zeros};

use crate::field::zero;

// Stays apart from `zero`: one line, over words.
pub fn zero_words(hits: &mut [u32])
    ensures { hits.new ≡ zeros (length hits.old) }
{
    hits.fill(0);
}

// Stays parameters: it is all that it takes.
pub fn zero_both(hits: &mut [u32], text: &mut [u8])
    ensures { (hits.new ≡ zeros (length hits.old)) × (text.new ≡ zeros (length text.old)) }
{
    zero_words(hits);
    zero(text);
}
