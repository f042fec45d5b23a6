//! The collapse of a word, which is the projective measurement inside a measurement or a reset. Where the word's code has
//! only I and Z the outcome is its sign; otherwise the outcome is the coin, and all rows are turned.
ghost use Rattle.std.specs.Prelude.{◌≡◌, ◌<◌, ℕ, length, All, slice_set};
ghost use Rattle.gate_table.specs.Images.{arity_of};
ghost use Rattle.gate_table.specs.WordImages.{image_at};
ghost use Rattle.pauli_word.specs.declared.letter.Letter.TheVariants.{Z};
ghost use Rattle.pauli_word.specs.Letters.{letters_clash};
ghost use Rattle.pauli_word.specs.Parity.{exclusive_or};
ghost use Rattle.pauli_word.specs.Words.{anticommute, letter_at, with_sign_changed, lowest_X_or_Y};
ghost use Rattle.tableau.specs.private.CliffordMaps.{twisted};
ghost use Rattle.tableau.specs.private.Encoding.{HasLength, IsTableau, pair_at};
ghost use Rattle.tableau.specs.private.EncodingSteps.{lone, mapped, code_of, without, turning_gate, after_collapse, outcome_of, IsPivot, ClashesAt};

use crate::pairs::{Pair, change_sign};
use gate_table::Gate;
use pauli_word::{Letter, Word};
use std::alloc::Allocator;

/// Collapses the word whose code is `code.0`. Answers the outcome, and the row that was replaced where it was random.
pub(crate) fn collapse_code<A: Allocator + Copy>(
    rows: &mut Vec<Pair<A>, A>,
    word: &Word<A>,
    code: &mut Pair<A>,
    coin: bool,
) -> (bool, Option<usize>)
    requires tableau { IsTableau (length rows.old.items) rows.old.items }
    requires word { length word.now.letters ≡ length rows.old.items }
    requires code { HasLength (length rows.old.items) code.old }
    requires of_word { code.old.0
        ≡ code_of (length rows.old.items) rows.old.items word.now.letters }
    ensures rows { rows.new.items
        ≡ after_collapse (length rows.old.items) code.old.0 coin rows.old.items }
    ensures code { HasLength (length rows.old.items) code.new }
    ensures outcome { result.0 ≡ outcome_of code.old.0 coin }
    ensures row { result.1 ≡ lowest_X_or_Y code.old.0.letters }
{
    match code.0.lowest_x_or_y() {
        None => (code.0.sign(), None),
        Some(qubit) => {
            let letter = code.0.letter(qubit);
            set_pivot(code, qubit, coin);
            turn_rows(rows, word, code, letter, qubit);
            (coin, Some(qubit))
        }
    }
}

fn turning_gate(letter: Letter) -> Gate
    ensures gate { result ≡ turning_gate letter }
    ensures arity { arity_of result ≡ 1 }
{
    match letter {
        Letter::X => Gate::CXYZ,
        _ => Gate::SqrtY,
    }
}

// The two words by which rows with X or Y at the qubit are multiplied: the code with I there, and minus that with Z.
fn set_pivot<A: Allocator + Copy>(code: &mut Pair<A>, qubit: usize, coin: bool)
    requires inside { qubit < length code.old.0.letters }
    requires size { HasLength (length code.old.0.letters) code.old }
    ensures rest { code.new.0 ≡ without qubit (with_sign_changed coin code.old.0) }
    ensures pivot { IsPivot (length code.old.0.letters) qubit code.new }
{
    code.0.set_letter(qubit, Letter::I);
    change_sign(&mut code.0, coin);
    code.1.copy_from(&code.0);
    code.1.set_letter(qubit, Letter::Z);
    change_sign(&mut code.1, true);
}

// Whether a row commutes with the code follows from the letter measured at the row's qubit, so the row isn't read for it.
fn turn_rows<A: Allocator + Copy>(
    rows: &mut Vec<Pair<A>, A>,
    word: &Word<A>,
    code: &Pair<A>,
    letter: Letter,
    qubit: usize,
)
    requires word { length word.now.letters ≡ length rows.old.items }
    requires pivot { IsPivot (length code.now.0.letters) qubit code.now }
    requires sizes { All (HasLength (length code.now.0.letters)) rows.old.items }
    requires clashes { (i : ℕ)
        → i < length rows.old.items
        → ClashesAt (letter_at word.now.letters i) letter qubit code.now.0
        (pair_at (length code.now.0.letters) rows.old.items i) }
    ensures { rows.new.items
        ≡ mapped
        (λ v. image_at (turning_gate letter) qubit
        (twisted (lone (length code.now.0.letters) qubit Z) code.now.0 v))
        rows.old.items }
{
    for row in 0..rows.len() {
        let measured = word.letter(row);
        turn_pair(&mut rows[row], code, letter, qubit, measured);
    }
}

fn turn_pair<A: Allocator + Copy>(
    pair: &mut Pair<A>,
    code: &Pair<A>,
    letter: Letter,
    qubit: usize,
    measured: Letter,
)
    requires pivot { IsPivot (length code.now.0.letters) qubit code.now }
    requires size { HasLength (length code.now.0.letters) pair.old }
    requires clashes { ClashesAt measured letter qubit code.now.0 pair.old }
    ensures { pair.new
        ≡ (
          image_at (turning_gate letter) qubit
              (twisted (lone (length code.now.0.letters) qubit Z) code.now.0 pair.old.0),
          image_at
              (turning_gate letter) qubit
              (twisted (lone (length code.now.0.letters) qubit Z) code.now.0 pair.old.1),
        ) }
{
    turn_row(
        &mut pair.0,
        code,
        letter,
        qubit,
        Letter::X.clashes(measured),
    );
    turn_row(
        &mut pair.1,
        code,
        letter,
        qubit,
        Letter::Z.clashes(measured),
    );
}

fn turn_row<A: Allocator + Copy>(
    row: &mut Word<A>,
    code: &Pair<A>,
    letter: Letter,
    qubit: usize,
    clashes: bool,
)
    requires pivot { IsPivot (length code.now.0.letters) qubit code.now }
    requires size { length row.old.letters ≡ length code.now.0.letters }
    requires clashes { anticommute row.old.letters code.now.0.letters
        ≡ exclusive_or clashes (letters_clash (letter_at row.old.letters qubit) letter) }
    ensures { row.new
        ≡ image_at (turning_gate letter) qubit
        (twisted (lone (length code.now.0.letters) qubit Z) code.now.0 row.old) }
{
    let here = row.letter(qubit);
    let twisted = twist(row, code, letter, qubit, here, clashes);
    put_image(row, turning_gate(letter), qubit, twisted);
}

// Only rows with X or Y at the qubit are multiplied; of others only the letter there changes. Answers the new letter
// there, which isn't put yet.
fn twist<A: Allocator + Copy>(
    row: &mut Word<A>,
    code: &Pair<A>,
    letter: Letter,
    qubit: usize,
    here: Letter,
    clashes: bool,
) -> Letter
    requires pivot { IsPivot (length code.now.0.letters) qubit code.now }
    requires size { length row.old.letters ≡ length code.now.0.letters }
    requires here { here ≡ letter_at row.old.letters qubit }
    requires clashes { anticommute row.old.letters code.now.0.letters
        ≡ exclusive_or clashes (letters_clash here letter) }
    ensures twisted { record row.new { letters = slice_set row.new.letters qubit result } ≡ twisted
        (lone (length code.now.0.letters) qubit Z) code.now.0 row.old }
    ensures size { length row.new.letters ≡ length code.now.0.letters }
{
    let anticommutes = clashes ^ here.clashes(letter);
    match here {
        Letter::X | Letter::Y => {
            if anticommutes {
                row.times(&code.0);
                here
            } else {
                row.times(&code.1);
                here.times(Letter::Z)
            }
        }
        along => {
            if anticommutes {
                Letter::Z.times(along)
            } else {
                along
            }
        }
    }
}

// Puts the image of a letter under a gate at a qubit.
fn put_image<A: Allocator + Copy>(word: &mut Word<A>, gate: Gate, qubit: usize, here: Letter)
    requires arity { arity_of gate ≡ 1 }
    requires inside { qubit < length word.old.letters }
    ensures { word.new
        ≡ image_at gate qubit
        (record word.old { letters = slice_set word.old.letters qubit here }) }
{
    let (letter, minus) = gate.image1(here);
    word.set_letter(qubit, letter);
    word.set_sign(word.sign() ^ minus);
}
