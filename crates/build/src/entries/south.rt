// The order of a table: words of the yards, by their lower latitudes.
ghost use mathlib.Core.{Path.{◌≡◌}, List.{map}};
ghost use Rattle.std.specs.Prelude.{◌*◌, ◌≤◌, length};
ghost use Rattle.builder.specs.Entries.{from_south, word_of_yard};
ghost use Rattle.builder.specs.Grouping.Keys.{numbers_from};

// A latitude counted from the south, never below zero.
// Stays by hand: it is a word of the definitions, and no `From`: a latitude is moved too.
fn from_south(latitude: i32) -> u64
    ensures { result ≡ from_south latitude }
{
    let up = (latitude as i64) + 0x8000_0000;
    up as u64
}

// A word a yard, as the yards came.
pub fn put_yard_words(boxes: &[i32], keys: &mut [u64])
    requires { (4 * length keys.old ≤ length boxes.now) × (length keys.old ≤ 4096) }
    ensures { keys.new ≡ map (word_of_yard boxes.now) (numbers_from 0 (length keys.old)) }
{
    for yard in 0..keys.len() {
        let up = from_south(boxes[4 * yard]);
        keys[yard] = up * 0x1_0000_0000 + yard as u64;
    }
}
