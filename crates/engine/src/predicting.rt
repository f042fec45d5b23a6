//! The symptom of error lines: what they flip together. The list of lines is read before the model, since of a line that it doesn't
//! name nothing is added up.
ghost use Rattle.std.specs.Prelude.{◌≡◌, ◌⊎◌, ℕ, List, Ok, Err, IfOk, IfErr};
ghost use Rattle.std.specs.List.Sorted.{IsStrictlyIncreasing};
ghost use Rattle.std.specs.Option.{option_copied};
ghost use Rattle.step_model.specs.Faults.{memory_fault};
ghost use Rattle.dem_text.specs.Predictions.{IsPrediction};
ghost use Rattle.engine.specs.Output.{done, prediction_output, refused_or};
ghost use Rattle.engine.specs.private.Answered.{Answers};
ghost use Rattle.engine.specs.private.Predicted.{IsReadAs, numbers_in};
ghost use Rattle.engine.specs.private.Served.{Serves};

use crate::answering::write_answer;
use crate::lines::symptom_line;
use crate::order::Status;
use crate::refusing::refuse;
use dem_text::{Prediction, predict};
use forward_sim::listed_numbers;
use std::alloc::Allocator;
use step_model::{Cause, Fault, Sink, Source};

const NO_SUCH_LINE: Fault = Fault {
    cause: Cause::FaultNumber,
    line: 0,
};

/// Reads the text of an error model to the end of its source, and writes the symptom of the error lines that are named, or
/// why that is refused.
pub(crate) fn serve_prediction<R: Source, W: Sink, A: Allocator + Copy>(
    alloc: A,
    lines: &[u8],
    source: &mut R,
    sink: &mut W,
) -> Result<Status, Fault>
    ensures { Serves R.left R.failures source.old source.new sink.old sink.new
        (λ text. Answers W.taken W.failures sink.old sink.new
        (refused_or (prediction_output lines.now text)) result) result }
{
    match listed_numbers(alloc, lines)? {
        Some(numbers) => serve_listed(alloc, Some(numbers.as_slice()), source, sink),
        None => serve_listed(alloc, None, source, sink),
    }
}

/// The same where the list is read, or is none.
fn serve_listed<R: Source, W: Sink, A: Allocator + Copy>(
    alloc: A,
    listed: Option<&[usize]>,
    source: &mut R,
    sink: &mut W,
) -> Result<Status, Fault>
    requires { IsStrictlyIncreasing (numbers_in (option_copied listed)) }
    ensures { (lines : List ℕ) → IsReadAs lines (option_copied listed.entry)
        → Serves R.left R.failures source.old source.new sink.old sink.new
        (λ text. Answers W.taken W.failures sink.old sink.new
        (refused_or (prediction_output lines text)) result) result }
{
    let found = predict(alloc, numbers_in(listed), source)?;
    write_prediction(alloc, listed, &found, sink)
}

/// The numbers of a list; where it is none, of no line.
fn numbers_in<'n>(listed: Option<&'n [usize]>) -> &'n [usize]
    ensures { result.now ≡ numbers_in (option_copied listed.entry) }
{
    match listed {
        Some(numbers) => numbers,
        None => &[],
    }
}

/// Writes what was predicted for the list, or why it is refused.
fn write_prediction<W: Sink, A: Allocator + Copy>(
    alloc: A,
    listed: Option<&[usize]>,
    found: &Prediction<A>,
    sink: &mut W,
) -> Result<Status, Fault>
    ensures { (lines text : List ℕ) → IsReadAs lines (option_copied listed.entry)
        → IsPrediction (numbers_in (option_copied listed.entry)) text found.now
        → Answers W.taken W.failures sink.old sink.new
        (refused_or (prediction_output lines text)) result }
{
    match prediction_line(alloc, listed, found) {
        Ok(line) => write_answer(sink, line.as_slice(), Status::Done),
        Err(fault) => refuse(alloc, fault, sink),
    }
}

/// The line that a prediction writes, or why it is refused: as its model is first, and then as its list is.
fn prediction_line<A: Allocator + Copy>(
    alloc: A,
    listed: Option<&[usize]>,
    found: &Prediction<A>,
) -> Result<Vec<u8, A>, Fault>
    ensures ok { IfOk result (λ line. (lines text : List ℕ)
        → IsReadAs lines (option_copied listed.entry)
        → IsPrediction (numbers_in (option_copied listed.entry)) text found.now
        → prediction_output lines text ≡ Ok (done line.items)) }
    ensures err { IfErr result (λ e. (lines text : List ℕ)
        → IsReadAs lines (option_copied listed.entry)
        → IsPrediction (numbers_in (option_copied listed.entry)) text found.now
        → (e ≡ memory_fault) ⊎ (prediction_output lines text ≡ Err e)) }
{
    match found {
        Prediction::Refused(fault) => Err(*fault),
        Prediction::NoSuchLine => Err(NO_SUCH_LINE),
        Prediction::Symptom(flipped) => {
            if listed.is_none() {
                return Err(NO_SUCH_LINE);
            }
            Ok(symptom_line(alloc, flipped.as_slice())?)
        }
    }
}
