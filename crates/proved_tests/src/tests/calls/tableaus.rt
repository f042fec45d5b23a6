//! A word that is applied to a state, what measurements replace, and the laws of states and rows.
ghost use Rattle.std.specs.Prelude.{◌≡◌, length};
ghost use Rattle.tableau.specs.Rows.{row_count};

use gate_table::{Gate, laws as gate_laws};
use pauli_word::{Letter, Word};
use std::alloc::{AllocError, Global};
use step_model::laws as step_laws;
use tableau::{Tableau, WaitingTableau, laws};

/// The laws of gates and steps, by which states change.
fn call_laws_of_steps() {
    gate_laws::arity_is_one_or_two();
    gate_laws::images_keep_products();
    gate_laws::images_keep_clashes();
    gate_laws::inverses_undo();
    gate_laws::images_keep_identity();
    gate_laws::word_images_keep_products();
    gate_laws::word_images_keep_commuting();
    gate_laws::word_preimages_undo();
    gate_laws::gates_keep_group();
    step_laws::steps_keep_group();
    step_laws::states_are_groups();
}

fn call_laws(tableau: &Tableau<Global>) {
    laws::rows_anticommute_in_pairs(tableau);
    laws::states_are_groups(tableau);
    laws::states_hold_the_products(tableau);
    laws::stabilizers_are_complete(tableau);
    laws::rows_span_all_words(tableau);
}

/// Whether the destabilizer of a row of two qubits is Z at the second, with sign plus.
fn is_second_z(
    alloc: Global,
    tableau: &Tableau<Global>,
    row: Option<usize>,
) -> Result<bool, AllocError> {
    let row = row.unwrap_or(2);
    if tableau.len() != 2 || 2 <= row {
        return Ok(false);
    }
    laws::rows_have_all_letters(tableau);
    let mut word = Word::identity(alloc, 2)?;
    word.set_sign(true);
    tableau.destabilizer(row, &mut word);
    Ok(!word.sign() && word.letter(0) == Letter::I && word.letter(1) == Letter::Z)
}

/// Whether X at the second of two qubits that are 0, which is applied with sign minus, makes this one 1.
fn turns_second(alloc: Global, tableau: &mut Tableau<Global>) -> Result<bool, AllocError>
    requires { row_count tableau.old ≡ 2 }
{
    let mut word = Word::identity(alloc, 2)?;
    word.set_letter(1, Letter::X);
    word.set_sign(true);
    tableau.apply_word(&word);
    let first = tableau.collapse(Letter::Z, 0, true);
    let second = tableau.collapse(Letter::Z, 1, false);
    Ok(first == (false, None) && second == (true, None))
}

fn word_turns_second(alloc: Global) -> Result<bool, AllocError> {
    turns_second(alloc, &mut Tableau::start(alloc, 2)?)
}

#[test]
fn a_word_is_applied(rt: HostRuntime) {
    call_laws_of_steps();
    assert!(rt; matches!(word_turns_second(rt.alloc()), Ok(true)));
}

/// X that is measured at the second of two qubits that are 0 is random, and takes the place of that qubit's Z.
fn second_x_replaces_z(alloc: Global) -> Result<bool, AllocError> {
    let mut tableau = Tableau::start(alloc, 2)?;
    let (outcome, row) = tableau.collapse(Letter::X, 1, true);
    call_laws(&tableau);
    Ok(outcome && is_second_z(alloc, &tableau, row)?)
}

#[test]
fn what_was_replaced_is_the_destabilizer(rt: HostRuntime) {
    assert!(rt; matches!(second_x_replaces_z(rt.alloc()), Ok(true)));
}

/// Whether the stabilizer of a row of two qubits is Z at the second, up to its sign.
fn may_replace_second_z(tableau: &Tableau<Global>, row: Option<usize>) -> bool {
    let row = row.unwrap_or(2);
    if tableau.len() != 2 || 2 <= row {
        return false;
    }
    tableau.stabilizer_clashes(row, 0) == (false, false)
        && tableau.stabilizer_clashes(row, 1) == (false, true)
}

/// X that is measured at the second of two qubits that are 0 is random, and decided from then on.
fn second_x_is_measured(alloc: Global) -> Result<bool, AllocError> {
    let mut tableau = Tableau::start(alloc, 2)?;
    let row = tableau.random_row(Letter::X, 1);
    let replaces = may_replace_second_z(&tableau, row);
    let first = tableau.measure(Letter::X, 1, true);
    let second = tableau.measure(Letter::X, 1, false);
    Ok(replaces && first && second && tableau.random_row(Letter::X, 1).is_none())
}

#[test]
fn a_letter_is_measured(rt: HostRuntime) {
    assert!(rt; matches!(second_x_is_measured(rt.alloc()), Ok(true)));
}

/// So is the product of X at both.
fn product_is_measured(alloc: Global) -> Result<bool, AllocError> {
    let mut word = Word::identity(alloc, 2)?;
    word.set_letter(0, Letter::X);
    word.set_letter(1, Letter::X);
    let mut tableau = Tableau::start(alloc, 2)?;
    let is_random = tableau.random_row_of_word(&word).is_some();
    let (first, row) = tableau.collapse_word(&word, true);
    let second = tableau.measure_word(&word, false);
    let is_decided = tableau.random_row_of_word(&word).is_none();
    Ok(is_random && first && row.is_some() && second && is_decided)
}

#[test]
fn a_product_is_measured(rt: HostRuntime) {
    assert!(rt; matches!(product_is_measured(rt.alloc()), Ok(true)));
}

/// X that is measured at two qubits that are 0 is random, and decided from then on, where only one turn can wait.
fn xs_are_measured(tableau: &mut WaitingTableau<Global>) -> bool
    requires { row_count tableau.old.rows ≡ 2 }
    ensures { row_count tableau.new.rows ≡ 2 }
{
    let first = tableau.measure(Letter::X, 0, true);
    let second = tableau.measure(Letter::X, 1, false);
    let again = tableau.measure(Letter::X, 0, false);
    tableau.reset_after(Letter::X, 0, again);
    let reset = tableau.measure(Letter::X, 0, true);
    first && !second && again && !reset
}

/// Then their product is decided too, and Z at each is random. H makes Z of X.
fn zs_are_random(tableau: &mut WaitingTableau<Global>, word: &Word<Global>) -> bool
    requires tableau { row_count tableau.old.rows ≡ 2 }
    requires word { length word.now.letters ≡ 2 }
    ensures { row_count tableau.new.rows ≡ 2 }
{
    let product = tableau.measure_word(word, true);
    let is_decided = tableau.random_row_of_word(word).is_none();
    let is_random = tableau.random_row(Letter::Z, 1).is_some();
    tableau.apply(Gate::H, 0, 0);
    let turned = tableau.measure(Letter::Z, 0, true);
    tableau.settle();
    is_decided && is_random && !product && !turned && tableau.settled().len() == 2
}

fn measurements_wait(alloc: Global) -> Result<bool, AllocError> {
    let mut word = Word::identity(alloc, 2)?;
    word.set_letter(0, Letter::X);
    word.set_letter(1, Letter::X);
    let mut tableau = WaitingTableau::start(alloc, 2, 1)?;
    if !xs_are_measured(&mut tableau) || !zs_are_random(&mut tableau, &word) {
        return Ok(false);
    }
    tableau.restart();
    Ok(!tableau.measure(Letter::Z, 0, true))
}

#[test]
fn turns_of_measurements_wait(rt: HostRuntime) {
    assert!(rt; matches!(measurements_wait(rt.alloc()), Ok(true)));
}
