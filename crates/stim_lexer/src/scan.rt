ghost use Rattle.std.specs.Prelude.{◌≡◌, ◌+◌, ◌<◌, ◌≤◌, ◌==◌, length, not, position, true, false};
ghost use Rattle.std.specs.List.{list_any, list_all, before_first, after_first, position_or_len};
ghost use Rattle.stim_lexer.specs.Bytes.{is_blank, is_bad_byte, is_brace, ends_name, from_first, after_blanks};
ghost use Rattle.stim_lexer.specs.Cut.{in_brackets, after_brackets, leaves_open};
ghost use Rattle.stim_lexer.specs.FirstLines.{IsFirstLine};
ghost use Rattle.stim_lexer.specs.private.Special.{is_rare, is_special, IsPlain};

use memchr::memchr;

/// Whether a byte is a space, a tab or a carriage return.
#[inline(always)]
pub fn is_blank(byte: u8) -> bool
    ensures { result ≡ is_blank byte }
{
    byte == b' ' || byte == b'\t' || byte == b'\r'
}

/// Whether a byte ends a name.
#[inline(always)]
fn ends_name(byte: u8) -> bool
    ensures { result ≡ ends_name byte }
{
    // Most bytes of a name stand between those that end one, and are told by this test alone.
    if (b')'..=b'Z').contains(&byte) {
        return false;
    }
    is_blank(byte) || byte == b'[' || byte == b'(' || byte == b'{' || byte == b'}' || byte == b'#'
}

/// Whether a text has only blanks.
pub(crate) fn is_blank_text(text: &[u8]) -> bool
    ensures { result ≡ list_all is_blank text.now }
{
    text.iter().all(|byte| is_blank(*byte))
}

/// Whether a text has a byte that is neither a blank nor printable.
pub(crate) fn any_bad_byte(text: &[u8]) -> bool
    ensures { result ≡ list_any is_bad_byte text.now }
{
    text.iter()
        .any(|byte| !is_blank(*byte) && !(32..=126).contains(byte))
}

/// Whether a byte is one that most lines don't have.
#[inline(always)]
fn is_special(byte: u8) -> bool
    ensures { result ≡ is_special byte }
{
    // Both are tested, so that a byte takes no branch.
    !(32..=122).contains(&byte) | (byte == b'#')
}

#[inline(never)]
pub(crate) fn any_special(line: &[u8]) -> bool
    ensures { result ≡ list_any is_special line.now }
{
    let mut special = false;
    for byte in line {
        special |= is_special(*byte);
    }
    special
}

/// Whether a byte is special, and doesn't end a line.
#[inline(always)]
fn is_rare(byte: u8) -> bool
    ensures { result ≡ is_rare byte }
{
    is_special(byte) & (byte != b'\n')
}

#[inline(always)]
fn any_rare(piece: &[u8]) -> bool
    ensures { result ≡ list_any is_rare piece.now }
{
    let mut rare = false;
    for byte in piece {
        rare |= is_rare(*byte);
    }
    rare
}

/// How many bytes are tested at once.
const PIECE: usize = 64;

/// How many bytes are tested before the lines among them are read.
const AHEAD: usize = 4096;

/// How many bytes in front of a text are found to be plain, several lines at once.
#[inline(never)]
fn plain_front(text: &[u8]) -> usize
    ensures { IsPlain result text.now }
{
    let mut front = 0;
    while front < AHEAD && front + PIECE <= text.len() && !any_rare(&text[front..front + PIECE]) {
        front += PIECE;
    }
    front
}

/// Whether a line has a special byte, where it is known that it has none if it isn't longer than what is plain.
#[inline(always)]
fn has_special(plain: usize, line: &[u8]) -> bool
    requires { length line.now ≤ plain → list_any is_special line.now ≡ false }
    ensures { result ≡ list_any is_special line.now }
{
    if line.len() <= plain {
        false
    } else {
        any_special(line)
    }
}

/// Whether the first line of a text has a special byte, and how many bytes are known to be plain behind the line, where so
/// many in front of the text were. Most lines end among these.
#[inline(always)]
pub(crate) fn judge_line(plain: usize, text: &[u8], line: &[u8], after: &[u8]) -> (bool, usize)
    requires plain { IsPlain plain text.now }
    requires first { IsFirstLine text.now line.now after.now }
    ensures special { result.0 ≡ list_any is_special line.now }
    ensures plain { IsPlain result.1 after.now }
{
    if line.len() < plain {
        return (false, (plain - line.len() - 1).min(after.len()));
    }
    judge_far_line(text, line, after)
}

/// The same for a line that doesn't end among these: more of them are looked for.
#[inline(never)]
fn judge_far_line(text: &[u8], line: &[u8], after: &[u8]) -> (bool, usize)
    requires { IsFirstLine text.now line.now after.now }
    ensures special { result.0 ≡ list_any is_special line.now }
    ensures plain { IsPlain result.1 after.now }
{
    let plain = plain_front(text);
    let special = has_special(plain, line);
    (
        special,
        plain.saturating_sub(line.len() + 1).min(after.len()),
    )
}

/// Where the first byte stands that isn't a blank.
#[inline(always)]
fn place_after_blanks(text: &[u8]) -> Option<usize>
    ensures { result ≡ position (λ b. not (is_blank b)) text.now }
{
    text.iter().position(|byte| !is_blank(*byte))
}

/// Where the first byte stands that ends a name.
fn place_of_name_end(text: &[u8]) -> Option<usize>
    ensures { result ≡ position ends_name text.now }
{
    text.iter().position(|byte| ends_name(*byte))
}

/// Where the first brace stands.
fn place_of_brace(text: &[u8]) -> Option<usize>
    ensures { result ≡ position is_brace text.now }
{
    text.iter().position(|byte| *byte == b'{' || *byte == b'}')
}

/// Where a byte first stands, or the text's length.
#[inline(always)]
fn place_of(text: &[u8], byte: u8) -> usize
    ensures { result ≡ position_or_len (λ b. b == byte) text.now }
{
    memchr(byte, text).unwrap_or(text.len())
}

/// A text without the blanks in front.
#[inline(always)]
#[tactic(auto, using(crate::proofs::ScanLemmas::places))]
pub fn after_blanks(text: &[u8]) -> &[u8]
    ensures { result.now ≡ after_blanks text.now }
{
    let place = place_after_blanks(text).unwrap_or(text.len());
    text.split_at(place).1
}

/// The parts of a text before the byte that ends a name, and from there on.
#[tactic(auto, using(crate::proofs::ScanLemmas::places))]
pub(crate) fn cut_name(text: &[u8]) -> (&[u8], &[u8])
    ensures name { result.0.now ≡ before_first ends_name text.now }
    ensures after { result.1.now ≡ from_first ends_name text.now }
{
    let place = place_of_name_end(text).unwrap_or(text.len());
    text.split_at(place)
}

/// A text from its first brace on. `nowhere` says that it is known to have none.
#[inline(always)]
#[tactic(auto, using(crate::proofs::ScanLemmas::places))]
pub(crate) fn from_brace(text: &[u8], nowhere: bool) -> &[u8]
    requires { nowhere ≡ true → list_any is_brace text.now ≡ false }
    ensures { result.now ≡ from_first is_brace text.now }
{
    if nowhere {
        return &[];
    }
    let place = place_of_brace(text).unwrap_or(text.len());
    text.split_at(place).1
}

/// The parts of a text before the first of this byte, and from there on. Where the byte isn't there, the first part is
/// all.
#[inline(always)]
pub fn cut_at(text: &[u8], byte: u8) -> (&[u8], &[u8])
    ensures before { result.0.now ≡ before_first (λ b. b == byte) text.now }
    ensures after { result.1.now ≡ from_first (λ b. b == byte) text.now }
    ensures len { length result.0.now + length result.1.now ≡ length text.now }
{
    text.split_at(place_of(text, byte))
}

/// A text up to the first of this byte. `nowhere` says that it is known to have none.
#[inline(always)]
pub(crate) fn before_byte(text: &[u8], byte: u8, nowhere: bool) -> &[u8]
    requires { nowhere ≡ true → list_any (λ b. b == byte) text.now ≡ false }
    ensures { result.now ≡ before_first (λ b. b == byte) text.now }
{
    if nowhere {
        return text;
    }
    cut_at(text, byte).0
}

/// Where a byte first stands. One that is near is found sooner than by `place_of`.
#[inline(always)]
fn near_place(text: &[u8], byte: u8) -> Option<usize>
    ensures { result ≡ position (λ b. b == byte) text.now }
{
    text.iter().position(|other| *other == byte)
}

/// The parts of a text before the first of a byte that is near, and from there on. Where the byte isn't there, the first
/// part is all.
#[inline(always)]
#[tactic(auto, using(crate::proofs::ScanLemmas::places))]
pub fn cut_near(text: &[u8], byte: u8) -> (&[u8], &[u8])
    ensures before { result.0.now ≡ before_first (λ b. b == byte) text.now }
    ensures after { result.1.now ≡ from_first (λ b. b == byte) text.now }
    ensures len { length result.0.now + length result.1.now ≡ length text.now }
{
    let place = near_place(text, byte).unwrap_or(text.len());
    text.split_at(place)
}

/// What stands before the first of this byte, what follows it, and whether it is there. Where it isn't, everything
/// stands before it.
#[inline(always)]
fn cut_round(text: &[u8], byte: u8) -> (&[u8], &[u8], bool)
    ensures before { result.0.now ≡ before_first (λ b. b == byte) text.now }
    ensures after { result.1.now ≡ after_first (λ b. b == byte) text.now }
    ensures found { result.2 ≡ list_any (λ b. b == byte) text.now }
{
    let (before, rest) = cut_near(text, byte);
    match rest {
        [_, after @ ..] => (before, after, true),
        [] => (before, rest, false),
    }
}

/// What stands in brackets or parentheses, and what follows them, with and without the blanks in front.
#[derive(Clone, Copy)]
pub(crate) struct Bracketed<'a> {
    pub inside: &'a [u8],
    pub after: &'a [u8],
    pub start: &'a [u8],
    pub stays_open: bool,
}

/// Cuts a text at the first closing byte, where it begins with an opening one after any blanks. `start` is the text without
/// these.
#[inline(always)]
pub(crate) fn cut_brackets<'a>(
    text: &'a [u8],
    start: &'a [u8],
    opening: u8,
    closing: u8,
) -> Bracketed<'a>
    requires { start.now ≡ after_blanks text.now }
    ensures inside { result.inside.now
        ≡ in_brackets (λ b. b == opening) (λ b. b == closing) text.now }
    ensures after { result.after.now
        ≡ after_brackets (λ b. b == opening) (λ b. b == closing) text.now }
    ensures start { result.start.now ≡ after_blanks result.after.now }
    ensures stays_open { result.stays_open
        ≡ leaves_open (λ b. b == opening) (λ b. b == closing) text.now }
{
    match start {
        [first, opened @ ..] if *first == opening => {
            let (inside, after, closed) = cut_round(opened, closing);
            Bracketed {
                inside,
                after,
                start: after_blanks(after),
                stays_open: !closed,
            }
        }
        _ => Bracketed {
            inside: &[],
            after: text,
            start,
            stays_open: false,
        },
    }
}

/// The first line of a text, and what follows its line feed.
pub fn first_line(text: &[u8]) -> (&[u8], &[u8])
    requires { 0 < length text.now }
    ensures { IsFirstLine text.now result.0.now result.1.now }
{
    let (line, rest) = cut_at(text, b'\n');
    match rest {
        [_, after @ ..] => (line, after),
        [] => (line, rest),
    }
}
