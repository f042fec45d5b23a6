//! An error line as nearly all are written, read straight from its bytes where it begins as one before it.
ghost use Rattle.std.specs.Prelude.{◌≡◌, ◌<◌, ◌≤◌, ◌∷◌, ◌++◌, ℕ, List, [], true, codes, length, Some, IfOk, IfSome};
ghost use Rattle.std.specs.List.{list_all};
ghost use Rattle.stim_parser.specs.Arguments.{arguments_in};
ghost use Rattle.stim_parser.specs.declared.forms.ArgumentForm.TheVariants.{OneProbability};
ghost use Rattle.stim_parser.specs.Probabilities.{AreProbabilities};
ghost use Rattle.dem_text.specs.private.ErrorTexts.{is_quiet, BeginsWithExtent, BeginsWithTargets, IsBehindEnd, IsNumberFront, IsTargetFront, ends_line};
ghost use Rattle.dem_text.specs.private.Lines.{BeginsWithError, BeginsWithHead, SaysFirst};
ghost use Rattle.std.specs.Char.{is_ascii_digit};

use crate::brief::{Extent, NONE, raised_to};
use crate::judge::said_in;
use crate::operation::Operation;
use crate::target::{Target, is_target_beyond};
use std::alloc::{AllocError, Allocator};
use stim_lexer::{Said, cut_at, first_line};
use stim_parser::{
    ArgumentForm, Last, LastProbability, has_wrong_arguments, has_wrong_probability, read_arguments,
};

/// The greatest number after which one more digit is read.
const MOST_READ: u32 = 99_999;

/// So many digits are looked for: no number of as many is within its limit, if it doesn't begin with zeros.
const MOST_DIGITS: usize = 7;

/// The digit that a text begins with, and what follows it.
#[inline(always)]
fn front_digit(text: &[u8]) -> Option<(u8, &[u8])>
    ensures digit { IfSome result (λ front. is_ascii_digit front.0 ≡ true) }
    ensures text { IfSome result (λ front. text.now ≡ front.0 ∷ front.1.now) }
{
    match text {
        [digit, after @ ..] if digit.is_ascii_digit() => Some((*digit, after)),
        _ => None,
    }
}

/// The number of the digits that a text begins with, and what follows them. There is none where they are many.
#[inline(always)]
fn front_number(text: &[u8]) -> Option<(u32, &[u8])>
    ensures front { IfSome result (λ front. IsNumberFront text.now front.0 front.1.now) }
    ensures few { IfSome result (λ front. front.0 < 1_000_000) }
    ensures less { IfSome result (λ front. length front.1.now < length text.now) }
{
    let mut number: u32 = 0;
    let mut rest = text;
    // A loop of so few turns is unrolled: then a digit takes no test of how many there were.
    for _ in 0..MOST_DIGITS {
        let Some((digit, after)) = front_digit(rest) else {
            return if rest.len() < text.len() {
                Some((number, rest))
            } else {
                None
            };
        };
        if number > MOST_READ {
            return None;
        }
        number = 10 * number + (digit - b'0') as u32;
        rest = after;
    }
    None
}

/// What follows a byte, where a text begins with it.
#[inline(always)]
pub(crate) fn behind_byte(byte: u8, text: &[u8]) -> Option<&[u8]>
    ensures text { IfSome result (λ rest. text.now ≡ byte ∷ rest.now) }
{
    match text {
        [first, rest @ ..] if *first == byte => Some(rest),
        _ => None,
    }
}

/// The target after the space that a text begins with, and what follows it.
#[inline(always)]
fn front_target(text: &[u8]) -> Option<(Target, &[u8])>
    ensures front { IfSome result (λ front. IsTargetFront text.now front.0 front.1.now) }
    ensures less { IfSome result (λ front. length front.1.now < length text.now) }
{
    let inside = behind_byte(b' ', text)?;
    if let Some(digits) = behind_byte(b'D', inside) {
        let (number, rest) = front_number(digits)?;
        return Some((Target::Detector(number as u64), rest));
    }
    if let Some(digits) = behind_byte(b'L', inside) {
        let (number, rest) = front_number(digits)?;
        return Some((Target::Observable(number as u64), rest));
    }
    let rest = behind_byte(b'^', inside)?;
    Some((Target::Separator, rest))
}

/// Whether a line ends where a text begins.
#[inline(always)]
fn ends_line(text: &[u8]) -> bool
    ensures { result ≡ ends_line text.now }
{
    matches!(text, [] | [b'\n', ..])
}

/// What follows the end of a line at which a text begins.
#[inline(always)]
fn behind_end(text: &[u8]) -> &[u8]
    requires { ends_line text.now ≡ true }
    ensures { IsBehindEnd text.now result.now }
{
    match text {
        [_, after @ ..] => after,
        [] => text,
    }
}

/// The extent of the targets of an error line that a text begins with, and what follows the line. There is none where a
/// target is written in a rare way, or is refused.
#[inline(always)]
fn extent_in(text: &[u8]) -> Option<(Extent, &[u8])>
    ensures { IfSome result (λ found. BeginsWithExtent text.now found.0 found.1.now) }
{
    let mut found = NONE;
    let mut rest = text;
    while !ends_line(rest) {
        let (target, after) = front_target(rest)?;
        if is_target_beyond(target) {
            return None;
        }
        found = raised_to(found, target);
        rest = after;
    }
    Some((found, behind_end(rest)))
}

/// Puts the targets of an error line that a text begins with into `targets`, in place of what it held, and answers what follows the
/// line. It answers nothing where a target is written in a rare way, or is refused.
fn put_targets<'t, A: Allocator + Copy>(
    targets: &mut Vec<Target, A>,
    text: &'t [u8],
) -> Result<Option<&'t [u8]>, AllocError>
    ensures { IfOk result (λ found. IfSome found
        (λ after. BeginsWithTargets text.now targets.new.items after.now)) }
{
    targets.clear();
    let mut rest = text;
    while !ends_line(rest) {
        let Some((target, after)) = front_target(rest) else {
            return Ok(None);
        };
        if is_target_beyond(target) {
            return Ok(None);
        }
        targets.push(target)?;
        rest = after;
    }
    Ok(Some(behind_end(rest)))
}

/// How an error line began, up to the end of its parentheses, and what stood in them, where it is accepted: most lines that follow
/// begin so.
#[derive(Clone, Copy)]
pub(crate) struct Head<'a> {
    beginning: &'a [u8],
    arguments: &'a [u8],
    ghost begins: { beginning.now ≡ codes "error(" ++ (arguments.now ++ 41 ∷ []) },
    ghost quiet: { list_all is_quiet arguments.now ≡ true },
    ghost right: { AreProbabilities OneProbability (arguments_in arguments.now) },
}

/// Whether each byte of a text may stand in arguments, and none ends them or the line.
fn is_quiet(text: &[u8]) -> bool
    ensures { result ≡ list_all is_quiet text.now }
{
    text.iter()
        .all(|byte| *byte == b' ' || (43..=122).contains(byte))
}

/// How many bytes are compared at once.
const AT_ONCE: usize = 8;

/// Whether texts of so many bytes are the same. All bytes are compared, so that none takes a branch.
#[inline(always)]
fn are_alike(front: &[u8], text: &[u8]) -> bool
    requires front { length front.now ≡ AT_ONCE }
    requires text { length text.now ≡ AT_ONCE }
    ensures { result ≡ true → text.now ≡ front.now }
{
    let mut differs = false;
    for place in 0..AT_ONCE {
        differs |= front[place] != text[place];
    }
    !differs
}

/// Whether texts that are as long, of so many bytes at least, are the same.
#[inline(always)]
fn are_same(front: &[u8], text: &[u8]) -> bool
    requires same { length text.now ≡ length front.now }
    requires long { AT_ONCE ≤ length front.now }
    ensures { result ≡ true → text.now ≡ front.now }
{
    let len = front.len();
    let mut place = 0;
    while len - place > AT_ONCE {
        let next = place + AT_ONCE;
        if !are_alike(&front[place..next], &text[place..next]) {
            return false;
        }
        place = next;
    }
    // The last bytes may have been compared already.
    are_alike(&front[len - AT_ONCE..], &text[len - AT_ONCE..])
}

/// What follows `front`, which has so many bytes at least, in a text that begins with it.
#[inline(always)]
fn behind_long<'t>(front: &[u8], text: &'t [u8]) -> Option<&'t [u8]>
    ensures { IfSome result (λ rest. text.now ≡ front.now ++ rest.now) }
{
    let len = front.len();
    if len < AT_ONCE || text.len() < len {
        return None;
    }
    let (before, rest) = text.split_at(len);
    if are_same(front, before) {
        Some(rest)
    } else {
        None
    }
}

/// What follows `front` in a text that begins with it.
fn behind<'t>(front: &[u8], text: &'t [u8]) -> Option<&'t [u8]>
    ensures { IfSome result (λ rest. text.now ≡ front.now ++ rest.now) }
{
    text.strip_prefix(front)
}

/// What follows `error(`, these arguments and `)` in a text that begins with them.
fn behind_head<'t>(arguments: &[u8], text: &'t [u8]) -> Option<&'t [u8]>
    ensures { IfSome result
        (λ rest. text.now ≡ codes "error(" ++ (arguments.now ++ 41 ∷ rest.now)) }
{
    let inside = behind(b"error(", text)?;
    let closed = behind(arguments, inside)?;
    let rest = behind_byte(b')', closed)?;
    Some(rest)
}

/// A text up to what it ends with.
pub(crate) fn up_to<'t>(text: &'t [u8], rest: &[u8]) -> &'t [u8]
    requires { length rest.now ≤ length text.now }
    ensures { (front : List ℕ) → text.now ≡ front ++ rest.now → result.now ≡ front }
{
    &text[..text.len() - rest.len()]
}

/// Whether arguments are those of an error line.
fn are_right<'a>(last: &mut LastProbability<'a>, arguments: &'a [u8]) -> bool
    ensures { result ≡ true → AreProbabilities OneProbability (arguments_in arguments.now) }
{
    let Some(read) = read_arguments(arguments) else {
        return false;
    };
    let form = ArgumentForm::OneProbability;
    !has_wrong_arguments(form, read.as_slice())
        && !has_wrong_probability(last, form, read.as_slice())
}

/// The arguments of the error line that a text begins with, where they are accepted and later lines may be compared
/// with them.
fn head_in<'a>(last: &mut LastProbability<'a>, text: &'a [u8]) -> Option<Head<'a>> {
    let inside = behind(b"error(", text)?;
    let (arguments, _) = cut_at(inside, b')');
    let rest = behind_head(arguments, text)?;
    let beginning = up_to(text, rest);
    if is_quiet(arguments) && are_right(last, arguments) {
        Some(Head {
            beginning,
            arguments,
        })
    } else {
        None
    }
}

/// What was read last: how error lines began, the last first, and what the judge keeps.
#[derive(Drop)]
pub(crate) struct Recent<'a> {
    pub last: Last<'a>,
    head: Option<Head<'a>>,
    other: Option<Head<'a>>,
}

impl<'a> Recent<'a> {
    /// Nothing was read.
    pub(crate) fn new() -> Self {
        Recent {
            last: Last::new(),
            head: None,
            other: None,
        }
    }
}

/// The arguments of the error line that a text begins with, and what follows its parentheses, where it begins as this one.
#[inline(always)]
fn begun<'a>(head: Option<Head<'a>>, text: &'a [u8]) -> Option<(&'a [u8], &'a [u8])>
    ensures { IfSome result (λ found. BeginsWithHead text.now found.0.now found.1.now) }
{
    let head = head?;
    let rest = behind_long(head.beginning, text)?;
    Some((head.arguments, rest))
}

/// Its arguments, and what follows its parentheses, where it begins as the one before the last, or in a way that is accepted anew.
#[inline(never)]
fn begun_other<'a>(recent: &mut Recent<'a>, text: &'a [u8]) -> Option<(&'a [u8], &'a [u8])>
    ensures { IfSome result (λ found. BeginsWithHead text.now found.0.now found.1.now) }
{
    let other = recent.other;
    if let Some(found) = begun(other, text) {
        recent.other = recent.head;
        recent.head = other;
        return Some(found);
    }
    let head = head_in(&mut recent.last.probability, text)?;
    recent.other = recent.head;
    recent.head = Some(head);
    begun(Some(head), text)
}

/// Its arguments, and what follows its parentheses, where they are accepted and written as most are.
#[inline(always)]
fn begun_first<'a>(recent: &mut Recent<'a>, text: &'a [u8]) -> Option<(&'a [u8], &'a [u8])>
    ensures { IfSome result (λ found. BeginsWithHead text.now found.0.now found.1.now) }
{
    match begun(recent.head, text) {
        Some(found) => Some(found),
        None => begun_other(recent, text),
    }
}

/// The extent of the targets of the error line that a text begins with, and what follows the line. There is none where the line
/// is no error line, is written in a rare way, or is refused.
#[inline(always)]
pub(crate) fn error_first<'a>(recent: &mut Recent<'a>, text: &'a [u8]) -> Option<(Extent, &'a [u8])>
    ensures { IfSome result (λ found. BeginsWithError text.now found.0 found.1.now) }
{
    let (_, targets) = begun_first(recent, text)?;
    let found = extent_in(targets)?;
    Some(found)
}

/// What the error line says that a text begins with, with its targets in `targets`, in place of what that held, and what follows the
/// line. There is nothing where the line is no error line, is written in a rare way, or is refused.
#[inline(always)]
fn said_alike<'a, A: Allocator + Copy>(
    recent: &mut Recent<'a>,
    targets: &mut Vec<Target, A>,
    text: &'a [u8],
) -> Result<Option<(Said<'a, Operation>, &'a [u8])>, AllocError>
    ensures { IfOk result (λ found. IfSome found (λ said. (depth number : ℕ)
        → SaysFirst depth number text.now targets.new.items (Some said.0) said.1.now)) }
{
    let Some((arguments, rest)) = begun_first(recent, text) else {
        return Ok(None);
    };
    let Some(after) = put_targets(targets, rest)? else {
        return Ok(None);
    };
    let operation = Operation::PauliError;
    Ok(Some((
        Said::Accepts {
            operation,
            arguments,
        },
        after,
    )))
}

/// What the first line of a text says, which is of this number, where so many blocks are open, with its targets in `targets`, in
/// place of what that held; none where it says nothing. And what follows the line.
pub(crate) fn said_first<'a, A: Allocator + Copy>(
    recent: &mut Recent<'a>,
    targets: &mut Vec<Target, A>,
    depth: usize,
    number: u64,
    text: &'a [u8],
) -> Result<(Option<Said<'a, Operation>>, &'a [u8]), AllocError>
    requires { 0 < length text.now }
    ensures { IfOk result (λ found. SaysFirst depth number text.now targets.new.items found.0
        found.1.now) }
{
    if let Some((said, after)) = said_alike(recent, targets, text)? {
        return Ok((Some(said), after));
    }
    let (line, after) = first_line(text);
    let said = said_in(&mut recent.last, targets, depth, number, line)?;
    Ok((said, after))
}
