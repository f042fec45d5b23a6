//! The collapse of a word, faster than in `collapse`, for who doesn't ask which word became a destabilizer. Where the outcome
//! is random, half of the rows are multiplied by one word, and of the others one bit is read.
ghost use Rattle.std.specs.Prelude.{◌≡◌, ◌+◌, ◌^◌, ◌<◌, ℕ, length, All};
ghost use Rattle.pauli_word.specs.declared.letter.Letter.TheVariants.{Z};
ghost use Rattle.pauli_word.specs.Letters.{is_minus, letter_power, letter_product, letters_clash};
ghost use Rattle.pauli_word.specs.Parity.{exclusive_or};
ghost use Rattle.pauli_word.specs.Words.{anticommute, letter_at, lone_letter, product, with_sign_changed, IsNextLetter};
ghost use Rattle.tableau.specs.private.CliffordMaps.{turned};
ghost use Rattle.tableau.specs.private.Encoding.{HasLength, IsTableau, pair_at};
ghost use Rattle.tableau.specs.private.EncodingSteps.{lone, mapped, code_of, after_measurement, outcome_of, TurnsAt};
ghost use Rattle.tableau.specs.private.Waiting.{measured_letter};

use crate::pairs::{Pair, change_sign, times};
use crate::waiting_turns::Origin;
use pauli_word::{Letter, Word};
use std::alloc::Allocator;

/// Collapses the word whose code is `code.0`, and answers the outcome.
pub(crate) fn measure_code<A: Allocator + Copy>(
    rows: &mut Vec<Pair<A>, A>,
    word: &Word<A>,
    code: &mut Pair<A>,
    coin: bool,
) -> bool
    requires tableau { IsTableau (length rows.old.items) rows.old.items }
    requires word { length word.now.letters ≡ length rows.old.items }
    requires code { HasLength (length rows.old.items) code.old }
    requires of_word { code.old.0
        ≡ code_of (length rows.old.items) rows.old.items word.now.letters }
    ensures rows { rows.new.items
        ≡ after_measurement (length rows.old.items) code.old.0 coin rows.old.items }
    ensures code { HasLength (length rows.old.items) code.new }
    ensures outcome { result ≡ outcome_of code.old.0 coin }
{
    match code.0.lowest_x_or_y() {
        None => code.0.sign(),
        Some(qubit) => {
            set_turn(code, qubit, coin);
            turn_rows(rows, word, &code.1, qubit);
            coin
        }
    }
}

/// The same for a letter at a qubit, whose code is `code.0`.
pub(crate) fn measure_letter<A: Allocator + Copy>(
    rows: &mut Vec<Pair<A>, A>,
    code: &mut Pair<A>,
    letter: Letter,
    qubit: usize,
    coin: bool,
) -> bool
    requires tableau { IsTableau (length rows.old.items) rows.old.items }
    requires inside { qubit < length rows.old.items }
    requires code { HasLength (length rows.old.items) code.old }
    requires of_letter { let n = length rows.old.items in
        code.old.0 ≡ code_of n rows.old.items (lone_letter n qubit letter) }
    ensures rows { rows.new.items
        ≡ after_measurement (length rows.old.items) code.old.0 coin rows.old.items }
    ensures code { HasLength (length rows.old.items) code.new }
    ensures outcome { result ≡ outcome_of code.old.0 coin }
{
    let Some(pivot) = code.0.lowest_x_or_y() else {
        return code.0.sign();
    };
    set_turn(code, pivot, coin);
    let origin = Origin {
        pivot,
        qubit,
        letter,
    };
    turn_rows_by_letter(rows, &code.1, origin);
    coin
}

// Makes the second word Z at the qubit times the first, whose sign is changed where the coin is 1.
pub(crate) fn set_turn<A: Allocator + Copy>(code: &mut Pair<A>, qubit: usize, coin: bool)
    requires inside { qubit < length code.old.0.letters }
    requires size { HasLength (length code.old.0.letters) code.old }
    ensures first { code.new.0 ≡ with_sign_changed coin code.old.0 }
    ensures second { code.new.1
        ≡ product (lone (length code.old.0.letters) qubit Z) (with_sign_changed coin code.old.0) }
{
    change_sign(&mut code.0, coin);
    code.1.copy_from(&code.0);
    let (letter, minus) = times_z(code.0.letter(qubit));
    code.1.set_letter(qubit, letter);
    change_sign(&mut code.1, minus);
}

// The letter of Z times a letter, and whether the product brings a minus.
#[inline(always)]
fn times_z(letter: Letter) -> (Letter, bool)
    ensures { result ≡ (letter_product Z letter, is_minus (letter_power Z letter)) }
{
    match letter {
        Letter::I => (Letter::Z, false),
        Letter::X => (Letter::Y, false),
        Letter::Y => (Letter::X, true),
        Letter::Z => (Letter::I, false),
    }
}

// Whether a row anticommutes with the turn follows from the letter measured at the row's qubit, and from the row's at `qubit`.
fn turn_rows<A: Allocator + Copy>(
    rows: &mut Vec<Pair<A>, A>,
    word: &Word<A>,
    turn: &Word<A>,
    qubit: usize,
)
    requires word { length word.now.letters ≡ length rows.old.items }
    requires inside { qubit < length turn.now.letters }
    requires sizes { All (HasLength (length turn.now.letters)) rows.old.items }
    requires clashes { (i : ℕ)
        → i < length rows.old.items
        → TurnsAt (letter_at word.now.letters i) qubit turn.now
        (pair_at (length turn.now.letters) rows.old.items i) }
    ensures { rows.new.items ≡ mapped (turned turn.now) rows.old.items }
{
    let mut next = word.next_letter(0);
    for row in 0..rows.len() {
        let measured = take_letter(word, &mut next, row);
        turn_pair(&mut rows[row], turn, qubit, measured);
    }
}

// The same where the letter at one qubit was measured.
fn turn_rows_by_letter<A: Allocator + Copy>(
    rows: &mut Vec<Pair<A>, A>,
    turn: &Word<A>,
    origin: Origin,
)
    requires inside { origin.pivot < length turn.now.letters }
    requires sizes { All (HasLength (length turn.now.letters)) rows.old.items }
    requires clashes { (i : ℕ)
        → i < length rows.old.items
        → TurnsAt (measured_letter origin i) origin.pivot turn.now
        (pair_at (length turn.now.letters) rows.old.items i) }
    ensures { rows.new.items ≡ mapped (turned turn.now) rows.old.items }
{
    for row in 0..rows.len() {
        turn_pair_by(&mut rows[row], turn, origin, row);
    }
}

// The letter of the word at a qubit. `next` is the next qubit with a letter, from this one on and then from the one behind it.
#[inline(always)]
fn take_letter<A: Allocator + Copy>(
    word: &Word<A>,
    next: &mut Option<usize>,
    qubit: usize,
) -> Letter
    requires inside { qubit < length word.now.letters }
    requires few { qubit + 1 < 2 ^ 64 }
    requires next { IsNextLetter word.now.letters qubit next.old }
    ensures letter { result ≡ letter_at word.now.letters qubit }
    ensures next { IsNextLetter word.now.letters (qubit + 1) next.new }
{
    let Some(at) = *next else {
        return Letter::I;
    };
    if at != qubit {
        return Letter::I;
    }
    *next = word.next_letter(qubit + 1);
    word.letter(qubit)
}

/// Turns the pair of a qubit by the turn of a letter that was measured.
#[inline(always)]
pub(crate) fn turn_pair_by<A: Allocator + Copy>(
    pair: &mut Pair<A>,
    turn: &Word<A>,
    origin: Origin,
    qubit: usize,
)
    requires inside { origin.pivot < length turn.now.letters }
    requires size { HasLength (length turn.now.letters) pair.old }
    requires clashes { TurnsAt (measured_letter origin qubit) origin.pivot turn.now pair.old }
    ensures { pair.new ≡ (turned turn.now pair.old.0, turned turn.now pair.old.1) }
{
    if qubit == origin.qubit {
        turn_pair(pair, turn, origin.pivot, origin.letter);
    } else {
        turn_pair(pair, turn, origin.pivot, Letter::I);
    }
}

// Few qubits are measured: of other pairs, one bit of each word is looked at in place.
#[inline(always)]
fn turn_pair<A: Allocator + Copy>(
    pair: &mut Pair<A>,
    turn: &Word<A>,
    qubit: usize,
    measured: Letter,
)
    requires inside { qubit < length turn.now.letters }
    requires size { HasLength (length turn.now.letters) pair.old }
    requires clashes { TurnsAt measured qubit turn.now pair.old }
    ensures { pair.new ≡ (turned turn.now pair.old.0, turned turn.now pair.old.1) }
{
    match measured {
        Letter::I => {
            turn_row(&mut pair.0, turn, qubit, false);
            turn_row(&mut pair.1, turn, qubit, false);
        }
        other => turn_measured(pair, turn, qubit, other),
    }
}

// The same where a letter was measured. It is not inlined, so that the loop over the other pairs is small.
#[inline(never)]
fn turn_measured<A: Allocator + Copy>(
    pair: &mut Pair<A>,
    turn: &Word<A>,
    qubit: usize,
    measured: Letter,
)
    requires inside { qubit < length turn.now.letters }
    requires size { HasLength (length turn.now.letters) pair.old }
    requires clashes { TurnsAt measured qubit turn.now pair.old }
    ensures { pair.new ≡ (turned turn.now pair.old.0, turned turn.now pair.old.1) }
{
    turn_row(&mut pair.0, turn, qubit, Letter::X.clashes(measured));
    turn_row(&mut pair.1, turn, qubit, Letter::Z.clashes(measured));
}

#[inline(always)]
fn turn_row<A: Allocator + Copy>(row: &mut Word<A>, turn: &Word<A>, qubit: usize, clashes: bool)
    requires inside { qubit < length row.old.letters }
    requires size { length row.old.letters ≡ length turn.now.letters }
    requires clashes { anticommute row.old.letters turn.now.letters
        ≡ exclusive_or (letters_clash (letter_at row.old.letters qubit) Z) clashes }
    ensures { row.new ≡ turned turn.now row.old }
{
    if row.has_x_or_y(qubit) != clashes {
        times(row, turn);
    }
}
