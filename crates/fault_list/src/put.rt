//! Texts that are put into a buffer from some place on, one after another.
ghost use Rattle.std.specs.Prelude.{◌≡◌, ◌≤◌, ◌+◌, ◌∷◌, ◌++◌, [], length, take};

/// Puts a byte at `at`, and answers where it ends.
#[inline(always)]
pub(crate) fn put_byte(buffer: &mut [u8], at: usize, byte: u8) -> usize
    requires room { at + 1 ≤ length buffer.old }
    ensures end { result ≡ at + 1 }
    ensures written { take result buffer.new ≡ take at buffer.old ++ byte ∷ [] }
{
    buffer[at] = byte;
    at + 1
}

/// Puts a text at `at`, and answers where it ends.
#[inline(always)]
pub(crate) fn put_text(buffer: &mut [u8], at: usize, text: &[u8]) -> usize
    requires room { at + length text.now ≤ length buffer.old }
    ensures end { result ≡ at + length text.now }
    ensures written { take result buffer.new ≡ take at buffer.old ++ text.now }
{
    let end = at + text.len();
    buffer[at..end].copy_from_slice(text);
    end
}

/// Puts the first of a fixed number of bytes at `at`, and answers where they end. All of the bytes are copied at once, so
/// some stand after that.
#[inline(always)]
pub(crate) fn put_first<const N: usize>(
    buffer: &mut [u8],
    at: usize,
    bytes: [u8; N],
    len: usize,
) -> usize
    requires room { at + N ≤ length buffer.old }
    requires within { len ≤ N }
    ensures end { result ≡ at + len }
    ensures written { take result buffer.new ≡ take at buffer.old ++ take len bytes.entry }
{
    buffer[at..at + N].copy_from_slice(&bytes);
    at + len
}
