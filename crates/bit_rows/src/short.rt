// Lists of words are copied and cleared here. Most have one or two words, for which this is faster than a call.
ghost use Rattle.std.specs.Prelude.{◌≡◌, length, replicate};

#[inline(always)]
pub(crate) fn copy_words(to: &mut [u64], from: &[u64])
    requires { length to.old ≡ length from.now }
    ensures after { to.new ≡ from.now }
    ensures len { length to.new ≡ length to.old }
{
    match from {
        [word] => to[0] = *word,
        [first, second] => {
            to[0] = *first;
            to[1] = *second;
        }
        _ => to.copy_from_slice(from),
    }
}

#[inline(always)]
pub(crate) fn clear_words(words: &mut [u64])
    ensures after { words.new ≡ replicate (length words.old) 0 }
    ensures len { length words.new ≡ length words.old }
{
    match words.len() {
        1 => words[0] = 0,
        2 => {
            words[0] = 0;
            words[1] = 0;
        }
        _ => words.fill(0),
    }
}
