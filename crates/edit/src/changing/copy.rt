// Words over the front of a list.
ghost use Rattle.std.specs.Prelude.{◌≡◌, ◌≤◌, length};
ghost use Rattle.numbers.specs.Lists.{over};

// Stays a loop: `copy_from_slice` calls memmove, and the archives call nothing but memset and memcpy.
pub(crate) fn copy_words(list: &mut [u32], words: &[u32])
    requires { length words.now ≤ length list.old }
    ensures { list.new ≡ over words.now list.old }
{
    let mut i = 0;
    while i < words.len() {
        list[i] = words[i];
        i += 1;
    }
}
