ghost use Rattle.std.specs.Prelude.{◌≡◌, ◌≢◌, ◌<◌, [], length, reverse, All, IfOk, IfSome, OnErr, OnOk};
ghost use Rattle.std.specs.List.Sorted.{IsStrictlyIncreasing};
ghost use Rattle.gate_table.specs.Images.{arity_of};
ghost use Rattle.trackers.specs.Tracked.{Tracked, each_word, undone_one, undone_two, with_I_at, added, anticommuting, letters_at, Fit, restored};

use flat_lists::FlatLists;
use gate_table::Gate;
use pauli_word::Letter;
use std::alloc::{AllocError, Allocator};
use step_model::Term;

/// An unsigned Pauli word for each target, taken back over the steps of a program: the words of the detectors, then
/// those of the observables. Lists of targets ascend, where nothing else is said.
///
/// After an error in `undo1`, `undo2`, `add` or `restore` nothing is promised about the words, and the tracker is not
/// used again. After one in `hit` it is as it was.
pub trait Tracker: Sized {
    // The words, in the order of their targets, and how many qubits they have.
    ghost tracked: { Self → Tracked };

    /// The words as lists of targets, which take little memory: two for each qubit, of the targets whose letter there
    /// has an X in it, and of those whose letter has a Z. It fails only where memory runs out, or where the lists would
    /// have 2^32 targets or more.
    fn keep<B: Allocator + Copy>(&self, alloc: B) -> Result<FlatLists<u32, B>, AllocError>
        ensures fit { IfOk result (Fit (tracked self.now)) }
        ensures words { IfOk result (λ lists. restored lists (tracked self.now)
            ≡ tracked self.now) };

    /// Puts the words that such lists stand for in place of those that it has.
    fn restore<B: Allocator + Copy>(&mut self, lists: &FlatLists<u32, B>) -> Result<(), AllocError>
        requires { Fit (tracked self.old) lists.now }
        ensures { OnOk result (tracked self.new ≡ restored lists.now (tracked self.old)) };

    /// Takes each word to its preimage under a one-qubit gate, the sign left out.
    fn undo1(&mut self, gate: Gate, q: usize) -> Result<(), AllocError>
        requires arity { arity_of gate ≡ 1 }
        requires in_range { q < (tracked self.old).qubits }
        ensures { OnOk result (tracked self.new
            ≡ each_word (undone_one gate q) (tracked self.old)) };

    /// Takes each word to its preimage under a two-qubit gate, the sign left out.
    fn undo2(&mut self, gate: Gate, a: usize, b: usize) -> Result<(), AllocError>
        requires arity { arity_of gate ≡ 2 }
        requires first_in_range { a < (tracked self.old).qubits }
        requires second_in_range { b < (tracked self.old).qubits }
        requires different { a ≢ b }
        ensures { OnOk result (tracked self.new
            ≡ each_word (undone_two gate a b) (tracked self.old)) };

    /// Multiplies the words of these targets, which ascend, by a letter at a qubit.
    fn add(&mut self, targets: &[u32], letter: Letter, q: usize) -> Result<(), AllocError>
        requires ascending { IsStrictlyIncreasing targets.now }
        requires named { All (λ t. t < length (tracked self.old).words) targets.now }
        requires in_range { q < (tracked self.old).qubits }
        ensures { OnOk result (tracked self.new ≡ added targets.now letter q (tracked self.old)) };

    /// Puts I at a qubit of each word. Takes no memory.
    fn clear(&mut self, q: usize)
        requires { q < (tracked self.old).qubits }
        ensures { tracked self.new ≡ each_word (with_I_at q) (tracked self.old) };

    /// Puts into `hit`, in place of what it held, the targets whose words anticommute with the product of these
    /// letters at qubits, ascending. The words stay, after an error too. `hit` is empty then: what it held is lost.
    fn hit<B: Allocator + Copy>(
        &mut self,
        terms: &[Term],
        hit: &mut Vec<u32, B>,
    ) -> Result<(), AllocError>
        requires { All (λ term. term.qubit < (tracked self.old).qubits) terms.now }
        ensures hit { OnOk result (hit.new.items ≡ anticommuting terms.now (tracked self.old)) }
        ensures empty { OnErr result (hit.new.items ≡ []) }
        ensures same { tracked self.new ≡ tracked self.old };

    /// The targets whose words anticommute with the product of these letters at qubits, the greatest first, where they
    /// are kept as such a list. A tracker need not keep them so.
    fn kept_hit(&self, terms: &[Term]) -> Option<&[u32]>
        requires { All (λ term. term.qubit < (tracked self.now).qubits) terms.now }
        ensures { IfSome result (λ hit. reverse hit.now
            ≡ anticommuting terms.now (tracked self.now)) };

    /// How many letters the words have at a qubit, a Y being two.
    fn letters_at(&self, q: usize) -> usize
        requires { q < (tracked self.now).qubits }
        ensures { result ≡ letters_at q (tracked self.now) };
}
