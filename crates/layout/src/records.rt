// The length of the records, which their words' lengths hang on.
ghost use mathlib.Core.{Path.{◌≡◌}, List.{[]}};
ghost use Rattle.std.specs.Prelude.{◌+◌, ◌^◌, ◌<◌, length};
ghost use Rattle.numbers.specs.Spelling.{varint_of};
ghost use Rattle.layout.specs.inner.{Layout.{next}, Answers.{WordSize, WordsSize, LaidOut}};

use numbers::write::write_varint;

// The bytes of a number's shortest varint.
// Stays an array: of no byte, so that the writer only counts.
pub fn size_of_varint(number: u64) -> usize
    ensures { result ≡ length (varint_of number) }
{
    let mut nothing = [0u8; 0];
    write_varint(&mut nothing, 0, number)
}

// The bytes of a word behind which stand records of this length.
fn word_size(word: u32, records: u64) -> u64
    requires { records < 2 ^ 32 }
    ensures { WordSize word records result }
{
    if word == 0 {
        return 0;
    }
    size_of_varint(255 + records + word as u64) as u64
}

// The bytes of all words.
fn words_size(words: &[u32], records: u64) -> u64
    requires { records < 2 ^ 32 }
    ensures { WordsSize words.now records result }
{
    let mut sum = 0;
    for word in words {
        sum += word_size(*word, records);
    }
    sum
}

// The length that the records take if they are laid out for this one.
fn next_length(inline: u64, words: &[u32], records: u64) -> u64
    requires { (inline < 2 ^ 32) × (records < 2 ^ 32) }
    ensures { result ≡ next inline words.now records }
{
    inline + words_size(words, records)
}

// The least length that fits, none if that is not below 2^32. By stepping: each step stays at or below every length that fits.
pub fn least_layout(inline: u64, words: &[u32]) -> Option<u64>
    ensures { LaidOut inline words.now result }
{
    // Stays a loop: what the next step is, the last one says.
    let mut records = inline;
    while records < 0x1_0000_0000 {
        let next = next_length(inline, words, records);
        if next == records {
            return Some(records);
        }
        records = next;
    }
    None
}
