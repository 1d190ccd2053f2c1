// Lists in a record, as arrays that are longer than any record needs.
// Stays, point 6: an array of the most that a record holds; a Vec could fail, and a record that is cut has zeros here.
ghost use Rattle.std.specs.Prelude.{◌≡◌, ◌≤◌, length};

use crate::record::word_at;
use numbers::point::signed;

// A word as an i32 has it: the signed form of twice the word.
fn signed_word(word: u32) -> i32 {
    signed(2 * u64::from(word))
}

// So many coordinates from a place of the record on.
pub fn coordinates(record: &[u8], at: usize, count: usize) -> [i32; 1024]
    requires { count ≤ 1024 }
    ensures { length result ≡ 1024 }
{
    let mut list = [0; 1024];
    let mut place = at;
    for i in 0..count {
        list[i] = signed_word(word_at(record, place));
        place = place.wrapping_add(4);
    }
    list
}

// So many words from a place of the record on.
fn words_at<const N: usize>(record: &[u8], at: usize, count: usize) -> [u32; N]
    requires { count ≤ N }
    ensures { length result ≡ N }
{
    let mut list = [0; N];
    let mut place = at;
    for i in 0..count {
        list[i] = word_at(record, place);
        place = place.wrapping_add(4);
    }
    list
}

// So many words of pieces, or of yards.
// Stays apart: one line, and the name says of what and how many at most.
pub fn piece_words(record: &[u8], at: usize, count: usize) -> [u32; 160]
    requires { count ≤ 160 }
    ensures { length result ≡ 160 }
{
    words_at(record, at, count)
}

// So many lengths from a place of the record on.
// Stays apart: one line, and the name says of what and how many at most.
pub fn lengths_at(record: &[u8], at: usize, count: usize) -> [u32; 1024]
    requires { count ≤ 1024 }
    ensures { length result ≡ 1024 }
{
    words_at(record, at, count)
}
