ghost use Rattle.std.specs.Prelude.{◌≡◌, ◌&&◌, drop, false, true};
ghost use Rattle.std.specs.List.{list_all, list_any};
ghost use Rattle.stim_lexer.specs.Bytes.{after_blanks, begins_with, is_blank, is_brace, is_close_brace, is_open_brace};
ghost use Rattle.stim_lexer.specs.declared.line.Braces.TheVariants.{NoBrace};
ghost use Rattle.stim_lexer.specs.Cut.{name_of, body_of, leaves_tag_open, braces_in, cut_of, has_bad_byte};
ghost use Rattle.stim_lexer.specs.Lexing.{cut_in};
ghost use Rattle.stim_lexer.specs.Lines.{content_of, is_closing};
ghost use Rattle.stim_lexer.specs.private.Special.{is_special};

use crate::scan::{
    after_blanks, any_bad_byte, before_byte, cut_brackets, cut_name, from_brace, is_blank_text,
};

/// The braces of a line, outside tag and comment.
#[derive(Clone, Copy)]
pub enum Braces {
    /// There are none.
    NoBrace,
    /// There is one, a `{` as the last byte that isn't a blank.
    OpeningLast,
    /// There is one, a `}` alone on its line.
    ClosingAlone,
    /// There are others.
    Misplaced,
}

/// A line cut into its parts, which are slices of the text. No part is judged.
#[derive(Clone, Copy)]
pub struct Line<'a> {
    /// The number of the line in its text, from 1.
    pub number: u64,
    /// What stands first; it may be empty.
    pub name: &'a [u8],
    /// Whether a tag isn't closed before the line's end, or parentheses before a comment.
    pub stays_open: bool,
    /// What stands in the parentheses. It is empty where there are none.
    pub arguments: &'a [u8],
    /// What follows, up to a brace or a comment, with the blanks around it.
    pub targets: &'a [u8],
    /// The line's braces.
    pub braces: Braces,
}

/// A line's name, what follows name and tag up to a comment, the same without the blanks in front, whether the tag stays
/// open, and whether the line has a special byte.
#[derive(Clone, Copy)]
pub(crate) struct Parts<'a> {
    pub name: &'a [u8],
    pub body: &'a [u8],
    pub start: &'a [u8],
    pub leaves_tag_open: bool,
    pub special: bool,
}

/// A line, what follows the blanks in front, and whether it has a special byte.
#[derive(Clone, Copy)]
pub(crate) struct Scanned<'a> {
    pub line: &'a [u8],
    pub start: &'a [u8],
    pub special: bool,
}

/// A line up to a comment, without the blanks in front.
#[inline(always)]
pub(crate) fn content_of(scanned: Scanned<'_>) -> &[u8]
    requires start { scanned.start.now ≡ after_blanks scanned.line.now }
    requires special { scanned.special ≡ list_any is_special scanned.line.now }
    ensures { result.now ≡ content_of scanned.entry.line.now }
{
    before_byte(scanned.start, b'#', !scanned.special)
}

/// Whether a line with this content closes a block.
pub(crate) fn is_closing(content: &[u8]) -> bool
    ensures { result
        ≡ (begins_with is_close_brace content.now && list_all is_blank (drop 1 content.now)) }
{
    match content {
        [b'}', rest @ ..] => is_blank_text(rest),
        _ => false,
    }
}

/// The parts of a line.
#[inline(always)]
pub(crate) fn parts_of(scanned: Scanned<'_>) -> Parts<'_>
    requires start { scanned.start.now ≡ after_blanks scanned.line.now }
    requires special { scanned.special ≡ list_any is_special scanned.line.now }
    ensures name { result.name.now ≡ name_of scanned.entry.line.now }
    ensures body { result.body.now ≡ body_of scanned.entry.line.now }
    ensures start { result.start.now ≡ after_blanks (body_of scanned.entry.line.now) }
    ensures stays_open { result.leaves_tag_open ≡ leaves_tag_open scanned.entry.line.now }
    ensures special { result.special ≡ scanned.entry.special }
{
    let (name, rest) = cut_name(scanned.start);
    let start = after_blanks(rest);
    let tag = cut_brackets(rest, start, b'[', b']');
    Parts {
        name,
        body: before_byte(tag.after, b'#', !scanned.special),
        start: before_byte(tag.start, b'#', !scanned.special),
        leaves_tag_open: tag.stays_open,
        special: scanned.special,
    }
}

/// Whether a text is `{` and blanks.
fn is_opening(text: &[u8]) -> bool
    ensures { result ≡ (begins_with is_open_brace text.now && list_all is_blank (drop 1 text.now)) }
{
    match text {
        [b'{', rest @ ..] => is_blank_text(rest),
        _ => false,
    }
}

/// The braces of a line that closes a block, or that has this body. `nowhere` says that the body is known to have none.
#[inline(always)]
fn braces_in(closes: bool, body: &[u8], nowhere: bool) -> Braces
    requires { nowhere ≡ true → list_any is_brace body.now ≡ false }
    ensures { result ≡ braces_in closes body.now }
{
    let rest = from_brace(body, nowhere);
    if closes {
        Braces::ClosingAlone
    } else if rest.is_empty() {
        Braces::NoBrace
    } else if is_opening(rest) {
        Braces::OpeningLast
    } else {
        Braces::Misplaced
    }
}

fn has_no_brace(braces: Braces) -> bool
    ensures { result ≡ true → braces ≡ NoBrace }
{
    matches!(braces, Braces::NoBrace)
}

/// The line, cut.
#[inline(always)]
pub(crate) fn line_of<'a>(number: u64, line: &'a [u8], closes: bool, parts: Parts<'a>) -> Line<'a>
    requires closes { closes ≡ is_closing line.now }
    requires name { parts.name.now ≡ name_of line.now }
    requires body { parts.body.now ≡ body_of line.now }
    requires start { parts.start.now ≡ after_blanks (body_of line.now) }
    requires stays_open { parts.leaves_tag_open ≡ leaves_tag_open line.now }
    requires special { parts.special ≡ list_any is_special line.now }
    ensures number { result.number ≡ number }
    ensures cut { cut_in result ≡ cut_of line.now }
{
    let parentheses = cut_brackets(parts.body, parts.start, b'(', b')');
    let braces = braces_in(closes, parts.body, !parts.special);
    Line {
        number,
        name: parts.name,
        stays_open: parts.leaves_tag_open || parentheses.stays_open,
        arguments: parentheses.inside,
        targets: before_byte(parentheses.after, b'{', has_no_brace(braces)),
        braces,
    }
}

/// Whether a byte that may not stand in a text stands in a line outside tag and comment.
#[inline(always)]
pub(crate) fn has_bad_byte(line: &[u8], parts: Parts) -> bool
    requires name { parts.name.now ≡ name_of line.now }
    requires body { parts.body.now ≡ body_of line.now }
    requires special { parts.special ≡ list_any is_special line.now }
    ensures { result ≡ has_bad_byte line.now }
{
    if !parts.special {
        return false;
    }
    any_bad_byte(parts.name) || any_bad_byte(parts.body)
}
