// Words into a lent list, and words held against it. A word that does not fit is counted and left out: the place is held against the room once, at the end.
ghost use Rattle.std.specs.Prelude.{◌^◌, ◌<◌, ◌≡◌, [], ◌∷◌, length};
ghost use Rattle.writer.specs.inner.Stored.{Stored};
ghost use Rattle.index.specs.inner.Own.{is_word, is_at};

pub fn put(words: &mut [u32], at: usize, word: u32) -> usize
    requires { at < 2 ^ 60 }
    ensures { Stored words.old at (word ∷ []) words.new result }
{
    if at < words.len() {
        words[at] = word;
    }
    at + 1
}

// So many, one behind the other.
pub fn put_all(words: &mut [u32], at: usize, more: &[u32]) -> usize
    requires { (at < 2 ^ 59) × (length more.now < 2 ^ 59) }
    ensures { Stored words.old at more.now words.new result }
{
    let mut next = at;
    for word in more {
        next = put(words, next, *word);
    }
    next
}

// Whether a word stands at a place.
pub fn is_word(words: &[u32], at: usize, word: u32) -> bool
    ensures { result ≡ is_word words.now at word }
{
    at < words.len() && words[at] == word
}

// Whether so many stand from a place on.
pub fn stand(words: &[u32], at: usize, more: &[u32]) -> bool
    requires { (at < 2 ^ 59) × (length more.now < 2 ^ 59) }
    ensures { result ≡ is_at words.now at more.now }
{
    for (i, word) in more.iter().enumerate() {
        if !is_word(words, at + i, *word) {
            return false;
        }
    }
    true
}
