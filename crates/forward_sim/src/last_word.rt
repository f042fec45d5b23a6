ghost use Rattle.std.specs.Prelude.{◌≡◌, ◌<◌, ◌≤◌, ◌+◌, ◌^◌, ◌++◌, [], length, take, if◌then◌else◌, IfOk};
ghost use Rattle.pauli_word.specs.declared.letter.Letter.TheVariants.{X, Z};
ghost use Rattle.tableau.specs.Rows.{row_count, stabilizer_at};
ghost use Rattle.forward_sim.specs.private.Kept.{clashing, terms_listed, terms_of_word};

use std::alloc::{AllocError, Allocator};
use std::marker::Model;
use tableau::Tableau;
use tableau::laws::rows_have_all_letters;

/// The word that the last collapse replaced, as a list of numbers, with room for any word. No more than 65,535 qubits fit
/// into such a list.
#[derive(Drop)]
pub(crate) struct LastWord<A: Allocator + Copy> {
    qubits: usize,
    // only the first `len` of these are the list
    numbers: Vec<u16, A>,
    len: usize,
    // room for the qubits with Z, until it is known where they come in the list
    zs: Vec<u16, A>,
}

impl<A: Allocator + Copy> Model for LastWord<A> {
    ghost use Rattle.std.specs.Prelude.{◌≡◌, ◌≤◌, ◌+◌, ◌*◌, length, take};
    ghost use Rattle.std.below.core.specs.declared.int.u16.TheConstants.{MAX};
    ghost use Rattle.forward_sim.specs.private.Kept.{WordRead, terms_listed};

    ghost Value = { WordRead };

    ghost view = { λ w. record { room = w.qubits; terms = terms_listed (take w.len w.numbers.items) } };

    ghost invariant = { λ w. (length w.numbers.items ≡ 2 * w.qubits + 1) × (w.qubits ≤ MAX) × (w.len ≤ length w.numbers.items) × (length w.zs.items ≡ w.qubits) };
}

impl<A: Allocator + Copy> LastWord<A> {
    /// No word yet, with room for one on so many qubits.
    pub(crate) fn new(alloc: A, qubits: usize) -> Result<Self, AllocError>
        ensures { IfOk result (λ word. word.room ≡ qubits) }
    {
        if qubits > u16::MAX as usize {
            return Err(AllocError);
        }
        let numbers = vec![in alloc; 0u16; 2 * qubits + 1]?;
        let zs = vec![in alloc; 0u16; qubits]?;
        Ok(LastWord {
            qubits,
            numbers,
            len: 0,
            zs,
        })
    }

    /// No word.
    pub(crate) fn clear(&mut self)
        ensures room { self.new.room ≡ self.old.room }
        ensures none { self.new.terms ≡ [] }
    {
        self.len = 0;
    }

    /// Reads the stabilizer of a row.
    pub(crate) fn read(&mut self, tableau: &Tableau<A>, row: usize)
        requires row { row < row_count tableau.now }
        requires room { row_count tableau.now ≤ self.old.room }
        ensures room { self.new.room ≡ self.old.room }
        ensures read { self.new.terms ≡ terms_of_word (stabilizer_at tableau.now row).letters }
    {
        let numbers = self.numbers.as_mut_slice();
        let (xs_end, count) = list_letters(numbers, self.zs.as_mut_slice(), tableau, row);
        numbers[0] = (xs_end - 1) as u16;
        append(numbers, xs_end, &self.zs[..count]);
        self.len = xs_end + count;
    }

    /// The word as a list of numbers.
    pub(crate) fn list(&self) -> &[u16]
        ensures { terms_listed result.now ≡ self.now.terms }
    {
        &self.numbers[..self.len]
    }
}

// Lists the qubits at which the stabilizer of a row clashes with Z, behind the first number of
// `xs`, and those at which it clashes with X. Answers where the first list ends, and how long the
// second is.
fn list_letters<A: Allocator + Copy>(
    xs: &mut [u16],
    zs: &mut [u16],
    tableau: &Tableau<A>,
    row: usize,
) -> (usize, usize)
    requires row { row < row_count tableau.now }
    requires few { row_count tableau.now ≤ u16.MAX }
    requires xs_room { 1 + row_count tableau.now ≤ length xs.old }
    requires zs_room { row_count tableau.now ≤ length zs.old }
    ensures xs_length { length xs.new ≡ length xs.old }
    ensures zs_length { length zs.new ≡ length zs.old }
    ensures start { 1 ≤ result.0 }
    ensures xs_end { result.0 ≤ 1 + row_count tableau.now }
    ensures zs_end { result.1 ≤ row_count tableau.now }
    ensures xs { take result.0 xs.new
        ≡ take 1 xs.old ++ clashing Z 0 (stabilizer_at tableau.now row).letters }
    ensures zs { take result.1 zs.new ≡ clashing X 0 (stabilizer_at tableau.now row).letters }
{
    rows_have_all_letters(tableau);
    let mut xs_end = 1;
    let mut zs_end = 0;
    for qubit in 0..tableau.len() {
        let (with_z, with_x) = tableau.stabilizer_clashes(row, qubit);
        xs[xs_end] = qubit as u16;
        xs_end = after(xs_end, with_z);
        zs[zs_end] = qubit as u16;
        zs_end = after(zs_end, with_x);
    }
    (xs_end, zs_end)
}

// Writes a list from a place on.
#[inline(always)]
fn append(numbers: &mut [u16], start: usize, more: &[u16])
    requires { start + length more.now ≤ length numbers.old }
    ensures length { length numbers.new ≡ length numbers.old }
    ensures listed { take (start + length more.now) numbers.new
        ≡ take start numbers.old ++ more.now }
{
    for place in 0..more.len() {
        numbers[start + place] = more[place];
    }
}

// The next place where there is one more, otherwise the same.
#[inline(always)]
fn after(place: usize, one_more: bool) -> usize
    requires { place + 1 < 2 ^ 64 }
    ensures { result ≡ (if one_more then place + 1 else place) }
{
    if one_more { place + 1 } else { place }
}
