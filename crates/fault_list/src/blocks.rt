//! The text of the letters of successive qubits. It goes out in blocks, each put into a buffer.
ghost use Rattle.std.specs.Prelude.{◌≡◌, ◌≤◌, ◌+◌, ◌*◌, ◌&&◌, ◌++◌, [], codes, length, take, if◌then◌else◌};
ghost use Rattle.step_model.specs.Pushed.{Pushes};
ghost use Rattle.step_model.specs.Listing.{is_I};
ghost use Rattle.fault_list.specs.FaultLines.{factor_text};
ghost use Rattle.fault_list.specs.private.FactorTexts.{is_none, joined_on, letter_factors, starred};

use crate::factors::put_starred;
use crate::letters::acts;
use crate::qubit_names::QubitNames;
use pauli_word::Letter;
use step_model::{Pieces, Sink, Term};

/// How long a buffer for blocks is at least.
pub(crate) const ROOM: usize = 12400;

/// How many letters a block has at most: of 12 bytes each at most, their text fits the buffer.
const BLOCK: usize = 1024;

/// Writes the factors of letters at successive qubits, the first of them at `from`, after others where they aren't the
/// first of their word. It answers whether there is still none.
pub(crate) fn write_letters<W: Sink>(
    out: &mut Pieces,
    sink: &mut W,
    buffer: &mut [u8],
    names: &QubitNames,
    letters: &[Letter],
    from: u32,
    first: bool,
) -> bool
    requires room { ROOM ≤ length buffer.old }
    requires fits { from + length letters.now ≤ u32.MAX }
    ensures first { result ≡ (first && is_none (letter_factors from letters.now)) }
    ensures pushed { Pushes W.taken W.failures sink.old sink.new out.old out.new
        (joined_on first (letter_factors from letters.now)) }
{
    let mut none = first;
    let mut done = 0;
    while done < letters.len() {
        let next = done + BLOCK.min(letters.len() - done);
        let block = &letters[done..next];
        none = write_block(out, sink, buffer, names, block, from + done as u32, none);
        done = next;
    }
    none
}

// The same of as many letters as a block has at most.
fn write_block<W: Sink>(
    out: &mut Pieces,
    sink: &mut W,
    buffer: &mut [u8],
    names: &QubitNames,
    letters: &[Letter],
    from: u32,
    first: bool,
) -> bool
    requires room { ROOM ≤ length buffer.old }
    requires within { from + length letters.now ≤ u32.MAX }
    requires few { length letters.now ≤ BLOCK }
    ensures first { result ≡ (first && is_none (letter_factors from letters.now)) }
    ensures pushed { Pushes W.taken W.failures sink.old sink.new out.old out.new
        (joined_on first (letter_factors from letters.now)) }
{
    let end = put_letters(buffer, names, letters, from);
    if end == 0 {
        return first;
    }
    let start = if first { 1 } else { 0 };
    out.push(sink, &buffer[start..end]);
    false
}

// Puts the factors of letters at successive qubits, each after `*`, and answers where they end.
#[inline(always)]
fn put_letters(buffer: &mut [u8], names: &QubitNames, letters: &[Letter], from: u32) -> usize
    requires room { length letters.now * 12 + 6 ≤ length buffer.old }
    requires fits { from + length letters.now ≤ u32.MAX }
    ensures within { result ≤ length letters.now * 12 }
    ensures written { take result buffer.new ≡ starred (letter_factors from letters.now) }
{
    let mut end = 0;
    for at in 0..letters.len() {
        end = put_letter(buffer, end, names, from + at as u32, letters[at]);
    }
    end
}

// The same of one letter, after what stands before `at`.
#[inline(always)]
fn put_letter(buffer: &mut [u8], at: usize, names: &QubitNames, qubit: u32, letter: Letter) -> usize
    requires room { at + 18 ≤ length buffer.old }
    ensures within { result ≤ at + 12 }
    ensures written { take result buffer.new
        ≡ take at buffer.old
        ++ (if is_I letter then [] else codes "*" ++ factor_text qubit letter) }
{
    if acts(letter) {
        put_starred(buffer, at, names, Term { qubit, letter })
    } else {
        at
    }
}
