ghost use Rattle.std.specs.Prelude.{◌≡◌, ◌<◌, false, None};
ghost use Rattle.pauli_word.specs.States.{outcome};
ghost use Rattle.pauli_word.specs.Words.{lone_letter};
ghost use Rattle.step_model.specs.Runs.{after_collapse, next_coin};
ghost use Rattle.tableau.specs.Rows.{NamesRandom};
ghost use Rattle.forward_sim.specs.private.Machines.{ComesTo, qubit_count, run_of};

use crate::machine::Machine;
use pauli_word::Letter;
use std::alloc::Allocator;

/// Measures a letter at a qubit, and answers the outcome. Records nothing. It stays apart from the loops over targets.
#[inline(never)]
pub(crate) fn measure_letter<A: Allocator + Copy>(
    machine: &mut Machine<'_, A>,
    letter: Letter,
    qubit: u32,
) -> bool
    requires { qubit < qubit_count machine.old }
    ensures outcome { result
        ≡ outcome (run_of machine.old).state (lone_letter (qubit_count machine.old) qubit letter)
        (next_coin machine.old.coins) }
    ensures run { ComesTo machine.old machine.new
        (after_collapse (lone_letter (qubit_count machine.old) qubit letter) None false false
        (run_of machine.old)) }
{
    let coin = machine.take_coin();
    machine.tableau.measure(letter, qubit as usize, coin)
}

/// The row whose stabilizer a measurement of a letter at a qubit may replace, where its outcome is random.
pub(crate) fn letter_row<A: Allocator + Copy>(
    machine: &mut Machine<'_, A>,
    letter: Letter,
    qubit: u32,
) -> Option<usize>
    requires { qubit < qubit_count machine.old }
    ensures same { machine.new ≡ machine.old }
    ensures row { NamesRandom machine.old.rows
        (lone_letter (qubit_count machine.old) qubit letter) result }
{
    machine.tableau.random_row(letter, qubit as usize)
}
