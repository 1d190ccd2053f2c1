// A text's hash, and whether two texts are the same.
ghost use Rattle.std.specs.Prelude.{◌≡◌};
ghost use Rattle.builder.specs.Sharing.{same_text};
ghost use Rattle.builder.specs.Grouping.Items.{hash_byte, hash_text};

fn hash_byte(hash: u32, byte: u8) -> u32
    ensures { result ≡ hash_byte hash byte }
{
    ((hash as u64 * 16777619 + byte as u64) % 0x1_0000_0000) as u32
}

// The hash of a text, behind the hash of what came before it.
pub fn hash_text(seed: u32, text: &[u8]) -> u32
    ensures { result ≡ hash_text seed text.now }
{
    text.iter().fold(seed, |hash, byte| hash_byte(hash, *byte))
}

// Stays apart: one line; `put_text` writes a text and is no twin.
// Stays by hand: it is std's `==`, under the name of the definitions.
pub fn same_text(a: &[u8], b: &[u8]) -> bool
    ensures { result ≡ same_text a.now b.now }
{
    a == b
}
