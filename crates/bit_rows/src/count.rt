// How many bits of a list of words are set.
ghost use Rattle.std.specs.Prelude.{◌≡◌, ◌<◌, ◌^◌, length};
ghost use Rattle.bit_rows.specs.private.WordTotals.{ones_of};

pub(crate) fn count_ones(words: &[u64]) -> usize
    requires { ones_of words.now (length words.now) < 2 ^ 64 }
    ensures { result ≡ ones_of words.now (length words.now) }
{
    let mut count: usize = 0;
    for word in words {
        count += word.count_ones() as usize;
    }
    count
}
