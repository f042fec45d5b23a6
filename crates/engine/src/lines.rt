//! The lines of runs, of random targets, of predictions and of refusals. Each text is built in one block of memory.
ghost use Rattle.std.specs.Prelude.{◌≡◌, ◌++◌, ◌∷◌, ◌+◌, codes, length, map, IfOk, OnOk};
ghost use Rattle.error_models.specs.ModelText.{target_text};
ghost use Rattle.frames.specs.Lines.{digit_of, line_of};
ghost use Rattle.engine.specs.Output.{refusal_line};

use forward_sim::Records;
use frames::digit;
use itoa::Buffer;
use std::alloc::{AllocError, Allocator};
use step_model::Fault;

/// The line of a run's records, and the line of its detections.
pub(crate) fn run_lines<A: Allocator + Copy>(
    alloc: A,
    records: &Records<A>,
    detections: &[bool],
) -> Result<Vec<u8, A>, AllocError>
    ensures { IfOk result (λ text. text.items ≡ line_of records.now ++ line_of detections.now) }
{
    let length = records.len().saturating_add(detections.len());
    let mut text = Vec::with_capacity(alloc, length.saturating_add(2))?;
    push_line(&mut text, records.outcomes())?;
    push_line(&mut text, detections)?;
    Ok(text)
}

/// The symptom of error lines as a line: a digit for each detector and observable.
pub(crate) fn symptom_line<A: Allocator + Copy>(
    alloc: A,
    flipped: &[bool],
) -> Result<Vec<u8, A>, AllocError>
    ensures { IfOk result (λ text. text.items ≡ line_of flipped.now) }
{
    let mut text = Vec::with_capacity(alloc, flipped.len().saturating_add(1))?;
    push_line(&mut text, flipped)?;
    Ok(text)
}

/// The line that names a random target, and the two coin lists that show it.
pub(crate) fn random_lines<A: Allocator + Copy>(
    alloc: A,
    detectors: usize,
    target: usize,
    first: &[bool],
    second: &[bool],
) -> Result<Vec<u8, A>, AllocError>
    ensures { IfOk result (λ text. text.items
        ≡ codes "random"
        ++ target_text detectors target
        ++ 10
        ∷ line_of first.now
        ++ line_of second.now) }
{
    // The word and its space, a letter, twenty digits, and three line feeds.
    let length = first.len().saturating_add(second.len());
    let mut text = Vec::with_capacity(alloc, length.saturating_add(31))?;
    text.extend_from_slice(b"random")?;
    push_target(&mut text, detectors, target)?;
    text.push(b'\n')?;
    push_line(&mut text, first)?;
    push_line(&mut text, second)?;
    Ok(text)
}

// A target after its space. Detectors are numbered before observables.
fn push_target<A: Allocator + Copy>(
    text: &mut Vec<u8, A>,
    detectors: usize,
    target: usize,
) -> Result<(), AllocError>
    ensures { OnOk result (text.new.items ≡ text.old.items ++ target_text detectors target) }
{
    let mut digits = Buffer::new();
    if target < detectors {
        text.extend_from_slice(b" D")?;
        text.extend_from_slice(digits.format(target).as_bytes())?;
    } else {
        text.extend_from_slice(b" L")?;
        text.extend_from_slice(digits.format(target - detectors).as_bytes())?;
    }
    Ok(())
}

/// Appends a line with a digit for each truth value.
fn push_line<A: Allocator + Copy>(text: &mut Vec<u8, A>, values: &[bool]) -> Result<(), AllocError>
    ensures { OnOk result (text.new.items ≡ text.old.items ++ line_of values.now) }
{
    let start = text.len();
    // No memory has as many bytes as this fails for.
    let end = start.checked_add(values.len()).ok_or(AllocError)?;
    text.resize(end, b'0')?;
    put_digits(&mut text.as_mut_slice()[start..], values);
    text.push(b'\n')?;
    Ok(())
}

/// Puts a digit for each truth value. It stands apart, so that several are put at a time.
fn put_digits(digits: &mut [u8], values: &[bool])
    requires { length digits.old ≡ length values.now }
    ensures { digits.new ≡ map digit_of values.now }
{
    for index in 0..values.len() {
        digits[index] = digit(values[index]);
    }
}

/// The line that says why an order is refused.
pub(crate) fn refusal_text<A: Allocator + Copy>(
    alloc: A,
    fault: Fault,
) -> Result<Vec<u8, A>, AllocError>
    ensures { IfOk result (λ text. text.items ≡ refusal_line fault) }
{
    // The words, three digits, twenty digits and a line feed.
    let mut text = Vec::with_capacity(alloc, 40)?;
    let mut digits = Buffer::new();
    text.extend_from_slice(b"refused ")?;
    text.extend_from_slice(digits.format(fault.cause.number()).as_bytes())?;
    text.extend_from_slice(b" line ")?;
    text.extend_from_slice(digits.format(fault.line).as_bytes())?;
    text.push(b'\n')?;
    Ok(text)
}
