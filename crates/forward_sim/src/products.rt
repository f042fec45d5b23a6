ghost use Rattle.std.specs.Prelude.{◌≡◌, false, None};
ghost use Rattle.circuit_walk.specs.Letters.{AreSmall, letters_in};
ghost use Rattle.pauli_word.specs.States.{outcome};
ghost use Rattle.step_model.specs.Listing.{word_of_terms};
ghost use Rattle.step_model.specs.Runs.{after_collapse, next_coin};
ghost use Rattle.step_model.specs.WellFormed.{TermsFit};
ghost use Rattle.tableau.specs.Rows.{NamesRandom};
ghost use Rattle.forward_sim.specs.private.Machines.{ComesTo, qubit_count, run_of};

use crate::machine::Machine;
use circuit_walk::Letters;
use pauli_word::Letter;
use std::alloc::Allocator;
use tableau::Factors;

/// Measures a Pauli product, and answers the outcome. Records nothing.
pub(crate) fn measure_product<A: Allocator + Copy>(
    machine: &mut Machine<'_, A>,
    letters: Letters<'_>,
) -> bool
    requires small { AreSmall letters }
    requires fit { TermsFit (qubit_count machine.old) (letters_in letters) }
    ensures outcome { result
        ≡ outcome (run_of machine.old).state
        (word_of_terms (qubit_count machine.old) (letters_in letters.entry))
        (next_coin machine.old.coins) }
    ensures run { ComesTo machine.old machine.new
        (after_collapse (word_of_terms (qubit_count machine.old) (letters_in letters.entry)) None
        false false (run_of machine.old)) }
{
    let coin = machine.take_coin();
    machine
        .tableau
        .measure_product(ProductLetters { letters }, coin)
}

/// The row whose stabilizer a measurement of a Pauli product may replace, where its outcome is random.
pub(crate) fn product_row<A: Allocator + Copy>(
    machine: &mut Machine<'_, A>,
    letters: Letters<'_>,
) -> Option<usize>
    requires small { AreSmall letters }
    requires fit { TermsFit (qubit_count machine.old) (letters_in letters) }
    ensures same { machine.new ≡ machine.old }
    ensures row { NamesRandom machine.old.rows
        (word_of_terms (qubit_count machine.old) (letters_in letters.entry)) result }
{
    machine
        .tableau
        .random_row_of_product(ProductLetters { letters })
}

// The letters of a product, as its factors.
#[derive(Clone, Copy)]
struct ProductLetters<'c> {
    letters: Letters<'c>,
    ghost small: { AreSmall letters },
}

impl<'c> Factors for ProductLetters<'c> {
    ghost use Rattle.circuit_walk.specs.Letters.{letters_in};
    ghost use Rattle.forward_sim.specs.private.ProductFactors.{factors_of};

    ghost factors = { λ product. factors_of (letters_in product.letters) };

    #[inline(always)]
    fn take_first(&mut self) -> Option<(usize, Letter)> {
        match self.letters.split_first() {
            Some((term, rest)) => {
                *self = ProductLetters { letters: rest };
                Some((term.qubit as usize, term.letter))
            }
            None => None,
        }
    }
}
