//! What the error lines that are named flip together, of a model whose text comes from a source by pieces. Held of the text are the
//! line that isn't whole yet and the outermost block that isn't closed yet.
ghost use Rattle.std.specs.Prelude.{◌≡◌, ◌⊎◌, ◌+◌, ◌<◌, ◌≤◌, ◌^◌, ◌++◌, ℕ, List, Option, [], Some, None, drop, take, length, nat_lt, IfOk, IfErr, IfNone, IfSome, OnOk, OnErr, OnSome};
ghost use Rattle.std.specs.List.{list_all};
ghost use Rattle.std.specs.List.Sorted.{IsStrictlyIncreasing};
ghost use Rattle.step_model.specs.Ends.{HandsOutSome, IsAtEnd, read_failures};
ghost use Rattle.step_model.specs.Endless.{HandsOutMany};
ghost use Rattle.step_model.specs.Faults.{memory_fault, read_fault};
ghost use Rattle.dem_text.specs.Predictions.{HasPredicted};
ghost use Rattle.dem_text.specs.private.Gathering.{IsGathered, IsKnown, IsWholeFront, ReadsOnto, bits_in, most_places, refusal_of};
ghost use Rattle.dem_text.specs.private.Making.{HasRoomFor, IsReady};

use crate::front::{End, Front};
use crate::standing::{LineCounts, MOST_DETECTORS};
use bit_rows::BitRow;
use memchr::memrchr;
use std::alloc::{AllocError, Allocator};
use step_model::{Fault, Source};
use stim_lexer::cut_at;

/// How many bytes a source is asked for at a time.
const PIECE: usize = 65536;

/// The lines of a text are taken once it has so many bytes, since each time takes what was read last anew.
const ENOUGH: usize = 16384;

/// A source is given up once it has handed out so many lines.
const MOST_READ: u64 = 1 << 62;

/// How many observables there may be.
const MOST_OBSERVABLES: usize = 1024;

/// What error lines that are named flip together: a truth value for each detector, then one for each observable, which says
/// whether they flip it an odd number of times in all; or the model has fewer error lines; or it is refused.
#[derive(Drop)]
pub enum Prediction<A: Allocator + Copy> {
    Symptom(Vec<bool, A>),
    NoSuchLine,
    Refused(Fault),
}

/// The text of which not all was taken yet, what was read before it, and the refusal of a line of that. It is looked at once it
/// has so many bytes.
#[derive(Drop)]
struct Gathering<'n, A: Allocator + Copy> {
    text: Vec<u8, A>,
    front: Front<'n, A>,
    refused: Option<Fault>,
    least: usize,
}

/// Reads the next bytes of a source, by way of a buffer, onto those that a text has already. Answers how many, 0 at the end.
/// After a failure the source handed out no byte.
fn read_piece<S: Source, A: Allocator + Copy>(
    buffer: &mut [u8],
    text: &mut Vec<u8, A>,
    source: &mut S,
) -> Result<usize, Fault>
    requires { 0 < length buffer.old }
    ensures piece { IfOk result
        (λ n. ReadsOnto (S.left source.old) (S.left source.new) text.old.items text.new.items n) }
    ensures end { IfOk result (λ n. n ≡ 0 → IsAtEnd (S.left source.new)) }
    ensures fault { IfErr result (λ e. (e ≡ memory_fault) ⊎ (e ≡ read_fault)) }
    ensures none_lost { OnErr result (S.left source.new ≡ S.left source.old) }
    ensures count { S.failures source.new ≡ read_failures result (S.failures source.old) }
{
    // The room comes first: a refused growth then loses no byte.
    text.reserve(buffer.len())?;
    let n = source.read(buffer)?;
    text.extend_from_slice(&buffer[..n]).unwrap();
    Ok(n)
}

/// Where the last whole line ends that a text has, of which only bytes from `from` on are looked at; 0 where none is found.
fn end_of_lines(text: &[u8], from: usize) -> usize
    ensures within { result ≤ length text.now }
    ensures whole { IsWholeFront result text.now }
{
    let from = from.min(text.len());
    match memrchr(b'\n', &text[from..]) {
        Some(place) => from + place + 1,
        None => 0,
    }
}

/// Takes so many bytes off the front of a text.
fn drop_front<A: Allocator + Copy>(text: &mut Vec<u8, A>, bytes: usize)
    requires { bytes ≤ length text.old.items }
    ensures { text.new.items ≡ drop bytes text.old.items }
{
    // Nothing is moved where nothing goes, as with each piece of a long line.
    if bytes == 0 {
        return;
    }
    let len = text.len();
    text.copy_within(bytes..len, 0);
    text.truncate(len - bytes);
}

/// The bits of a model with so many detectors and observables.
fn symptom_of<A: Allocator + Copy>(
    alloc: A,
    bits: &BitRow<A>,
    counts: LineCounts,
) -> Result<Vec<bool, A>, AllocError>
    requires detectors { counts.detectors ≤ MOST_DETECTORS }
    requires places { MOST_DETECTORS + counts.observables ≤ length bits.now }
    ensures { IfOk result (λ found. found.items
        ≡ bits_in bits.now counts.detectors counts.observables) }
{
    let mut found = Vec::with_capacity(
        alloc,
        counts.detectors as usize + counts.observables as usize,
    )?;
    for detector in 0..counts.detectors as usize {
        found.push(bits.get(detector))?;
    }
    for observable in 0..counts.observables as usize {
        found.push(bits.get(MOST_DETECTORS as usize + observable))?;
    }
    Ok(found)
}

/// Whether each of some numbers is that of a line, where there are so many.
fn are_below(numbers: &[usize], count: usize) -> bool
    ensures { result ≡ list_all (λ n. nat_lt n count) numbers.now }
{
    numbers.iter().all(|number| *number < count)
}

/// The refusal of a line that ended the reading.
fn refusal_of(ended: End) -> Option<Fault>
    ensures { result ≡ refusal_of ended }
{
    match ended {
        End::Refused(fault) => Some(fault),
        _ => None,
    }
}

/// Whether a text has a brace that may close a block.
fn has_brace(text: &[u8]) -> bool {
    let (before, _) = cut_at(text, b'}');
    before.len() < text.len()
}

/// Twice so many bytes.
fn twice(bytes: usize) -> usize
    requires { bytes < 2 ^ 63 }
{
    2 * bytes
}

/// How many bytes a text has once it is looked at again, where the reading ended so before this many. An open block is gone over
/// anew, so at least as many more come first.
fn least_behind(ended: End, left: usize) -> usize
    requires { left < 2 ^ 63 }
{
    match ended {
        End::Open(_) => twice(left),
        _ => 0,
    }
}

impl<'n, A: Allocator + Copy> Gathering<'n, A> {
    /// Takes the lines of the text whose ends are there, of which those are found that end from `from` on, once the text is to be
    /// looked at.
    fn take_lines(&mut self, from: usize) -> Result<(), AllocError>
        requires ready { IsReady self.old.front }
        requires few { self.old.front.read < MOST_READ }
        ensures gathered { IfOk result (λ _. (named : List ℕ) (old new : Option (List ℕ))
            → IsGathered named old new self.old
            → IsGathered named old new self.new) }
        ensures ready { IfOk result (λ _. IsReady self.new.front) }
    {
        if self.text.len() < self.least.max(ENOUGH) {
            return Ok(());
        }
        if self.least > 0 && !has_brace(self.text.as_slice()) {
            self.least = twice(self.text.len());
            return Ok(());
        }
        if self.refused.is_some() {
            self.text.clear();
            return Ok(());
        }
        let whole = end_of_lines(self.text.as_slice(), from);
        let (rest, ended) = self.front.take_lines(&self.text[..whole])?;
        let used = whole - rest.len();
        self.refused = refusal_of(ended);
        self.least = least_behind(ended, self.text.len() - used);
        drop_front(&mut self.text, used);
        Ok(())
    }

    /// The prediction for error lines of these numbers, of a text that has ended.
    fn finish(&mut self, alloc: A, numbers: &[usize]) -> Result<Prediction<A>, AllocError>
        requires known { IsKnown numbers.now self.old }
        requires ready { IsReady self.old.front }
        requires few { self.old.front.read < MOST_READ }
        ensures { IfOk result (λ found. (old new : Option (List ℕ)) → IsGathered numbers.now old new self.old
            → HasPredicted numbers.now old new found) }
    {
        if let Some(fault) = self.refused {
            return Ok(Prediction::Refused(fault));
        }
        let (_, ended) = self.front.take_lines(self.text.as_slice())?;
        let counts = match self.front.verdict(ended) {
            Ok(counts) => counts,
            Err(fault) => return Ok(Prediction::Refused(fault)),
        };
        if !are_below(numbers, counts.errors) {
            return Ok(Prediction::NoSuchLine);
        }
        Ok(Prediction::Symptom(symptom_of(alloc, &self.front.fold.bits, counts)?))
    }
}

/// What the error lines of these numbers, from 0, flip together, of the model that a source hands out to its end. After a
/// failure, of the source or of memory, the source is not called again. A source that has not ended after 2^64 - 1 calls, or has
/// handed out 2^62 lines, counts as a lack of memory.
pub fn predict<S: Source, A: Allocator + Copy>(
    alloc: A,
    numbers: &[usize],
    source: &mut S,
) -> Result<Prediction<A>, Fault>
    requires { IsStrictlyIncreasing numbers.now }
    ensures found { IfOk result
        (λ found. HasPredicted numbers.now (S.left source.old) (S.left source.new) found) }
    ensures end { OnOk result (IsAtEnd (S.left source.new)) }
    ensures fault { IfErr result (λ e. (e ≡ memory_fault) ⊎ (e ≡ read_fault)) }
    ensures rest { OnErr result (HandsOutSome (S.left source.old) (S.left source.new)) }

    // One more where the source failed; otherwise as it was.
    ensures count { S.failures source.new ≡ read_failures result (S.failures source.old) }
{
    match predict_to_end(alloc, numbers, source)? {
        Some(found) => Ok(found),
        None => Err(Fault::MEMORY),
    }
}

/// The same; nothing where the source has not ended after 2^64 - 1 calls, each of which hands out a byte at least, or has handed
/// out 2^62 lines.
fn predict_to_end<S: Source, A: Allocator + Copy>(
    alloc: A,
    numbers: &[usize],
    source: &mut S,
) -> Result<Option<Prediction<A>>, Fault>
    requires { IsStrictlyIncreasing numbers.now }
    ensures found { IfOk result (λ read. IfSome read
        (λ found. HasPredicted numbers.now (S.left source.old) (S.left source.new) found)) }
    ensures end { IfOk result (λ read. OnSome read (IsAtEnd (S.left source.new))) }
    ensures endless { IfOk result (λ read. IfNone read (HandsOutMany (2 ^ 62)
        (S.left source.old) (S.left source.new))) }
    ensures fault { IfErr result (λ e. (e ≡ memory_fault) ⊎ (e ≡ read_fault)) }
    ensures rest { OnErr result (HandsOutSome (S.left source.old) (S.left source.new)) }
    ensures count { S.failures source.new ≡ read_failures result (S.failures source.old) }
{
    let mut buffer = [0u8; PIECE];
    let mut gathering = Gathering {
        text: Vec::new(alloc),
        front: Front::new(alloc, numbers, MOST_DETECTORS as usize + MOST_OBSERVABLES)?,
        refused: None,
        least: 0,
    };
    for _ in 0..u64::MAX {
        let from = gathering.text.len();
        if read_piece(&mut buffer, &mut gathering.text, source)? == 0 {
            return Ok(Some(gathering.finish(alloc, numbers)?));
        }
        gathering.take_lines(from)?;
        if gathering.front.read >= MOST_READ {
            return Ok(None);
        }
    }
    Ok(None)
}
