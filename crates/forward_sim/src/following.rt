//! The words that the steps of a reference run replace: each is read before its collapse, which is the projective
//! measurement inside a measurement or a reset.
ghost use Rattle.std.specs.Prelude.{◌≡◌, ◌<◌, ◌≤◌, length, IfSome};
ghost use Rattle.circuit_walk.specs.Steps.{listed};
ghost use Rattle.tableau.specs.Rows.{stabilizer_at};
ghost use Rattle.forward_sim.specs.References.{entry_of, IsStepEntry};
ghost use Rattle.forward_sim.specs.private.Kept.{entry_for};
ghost use Rattle.forward_sim.specs.private.Machines.{CanTake, qubit_count, run_of};

use crate::last_word::LastWord;
use crate::letters::letter_row;
use crate::machine::Machine;
use crate::products::product_row;
use circuit_walk::{Program, Step};
use std::alloc::Allocator;
use tableau::laws::rows_have_all_letters;

/// If a step is a collapse, reads the word that it will replace, none where its outcome isn't random.
pub(crate) fn read_replaced<A: Allocator + Copy>(
    machine: &mut Machine<'_, A>,
    program: &Program<'_, A>,
    word: &mut LastWord<A>,
    step: Step<'_>,
)
    requires step { CanTake program.now step (qubit_count machine.old) (length machine.old.records)
        machine.old.room }
    requires letters { program.now.listing.qubits ≤ word.old.room }
    ensures same { machine.new ≡ machine.old }
    ensures letters { word.new.room ≡ word.old.room }
    ensures entry { IsStepEntry program.now.listing.qubits (run_of machine.old).state
        (listed program.now.listing.qubits step.entry) (entry_of word.new.terms) }
{
    match step {
        Step::Collapse { letter, qubit, .. } => {
            let row = letter_row(machine, letter, qubit);
            read_row(machine, word, row);
        }
        Step::CollapseWord { letters, .. } => {
            let row = product_row(machine, letters);
            read_row(machine, word, row);
        }
        Step::One { .. } | Step::Two { .. } | Step::Fault { .. } | Step::Feedback { .. } => {}
    }
}

// Reads the stabilizer that a collapse may replace, if there is one.
fn read_row<A: Allocator + Copy>(
    machine: &mut Machine<'_, A>,
    word: &mut LastWord<A>,
    row: Option<usize>,
)
    requires inside { IfSome row (λ r. r < qubit_count machine.old) }
    requires room { qubit_count machine.old ≤ word.old.room }
    ensures same { machine.new ≡ machine.old }
    ensures room { word.new.room ≡ word.old.room }
    ensures long { IfSome row (λ r. length (stabilizer_at machine.old.rows r).letters
        ≡ qubit_count machine.old) }
    ensures read { entry_of word.new.terms ≡ entry_for machine.old.rows row }
{
    machine.tableau.settle();
    let tableau = machine.tableau.settled();
    rows_have_all_letters(tableau);
    match row {
        Some(row) => word.read(tableau, row),
        None => word.clear(),
    }
}
