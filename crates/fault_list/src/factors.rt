//! The text of a factor of a Pauli word, a letter and its qubit, put into a buffer.
ghost use Rattle.std.specs.Prelude.{◌≡◌, ◌≤◌, ◌+◌, ◌++◌, codes, decimal, length, take};
ghost use Rattle.fault_list.specs.FaultLines.{factor_text};

use crate::counter::digits_of;
use crate::letters::letter_byte;
use crate::put::{put_byte, put_first};
use crate::qubit_names::QubitNames;
use step_model::Term;

/// Puts a factor after `*`, and answers where it ends.
#[inline(always)]
pub(crate) fn put_starred(buffer: &mut [u8], at: usize, names: &QubitNames, term: Term) -> usize
    requires room { at + 18 ≤ length buffer.old }
    ensures within { result ≤ at + 12 }
    ensures written { take result buffer.new
        ≡ take at buffer.old ++ (codes "*" ++ factor_text term.qubit term.letter) }
{
    let end = put_byte(buffer, at, b'*');
    put_factor(buffer, end, names, term)
}

/// Puts a factor, and answers where it ends.
#[inline(always)]
pub(crate) fn put_factor(buffer: &mut [u8], at: usize, names: &QubitNames, term: Term) -> usize
    requires room { at + 17 ≤ length buffer.old }
    ensures within { result ≤ at + 11 }
    ensures written { take result buffer.new
        ≡ take at buffer.old ++ factor_text term.qubit term.letter }
{
    let end = put_byte(buffer, at, letter_byte(term.letter));
    put_qubit(buffer, end, names, term.qubit)
}

#[inline(always)]
fn put_qubit(buffer: &mut [u8], at: usize, names: &QubitNames, qubit: u32) -> usize
    requires room { at + 16 ≤ length buffer.old }
    ensures within { result ≤ at + 10 }
    ensures written { take result buffer.new ≡ take at buffer.old ++ decimal qubit }
{
    if names.has(qubit) {
        names.put(buffer, at, qubit)
    } else {
        put_number(buffer, at, qubit)
    }
}

#[inline(never)]
fn put_number(buffer: &mut [u8], at: usize, number: u32) -> usize
    requires room { at + 16 ≤ length buffer.old }
    ensures within { result ≤ at + 10 }
    ensures written { take result buffer.new ≡ take at buffer.old ++ decimal number }
{
    let (digits, len) = digits_of(number);
    put_first(buffer, at, digits, len)
}
