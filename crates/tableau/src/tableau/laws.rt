//! What holds of the rows of every tableau. Each function does nothing: its contract is the law, proved.
ghost use Rattle.std.specs.Prelude.{◌≡◌, ◌≢◌, ◌<◌, ◌||◌, ℕ, Bool, true, false, List, length};
ghost use Rattle.pauli_word.specs.declared.letter.Letter.{Letter};
ghost use Rattle.pauli_word.specs.Groups.{IsGroup};
ghost use Rattle.pauli_word.specs.Words.{Signed, with_sign_changed, anticommute, letters_product};
ghost use Rattle.tableau.specs.Rows.{row_count, stabilizer_at, destabilizer_at, chosen_product, stabilizer_product, destabilizer_product, state_of};

use super::Tableau;
use std::alloc::Allocator;

/// There is a destabilizer row for each stabilizer row, and each row has a letter for each qubit.
pub fn rows_have_all_letters<A: Allocator + Copy>(tableau: &Tableau<A>)
    ensures count { length tableau.now.destabilizers ≡ row_count tableau.now }
    ensures stabilizers { (i : ℕ)
        → i < row_count tableau.now
        → length (stabilizer_at tableau.now i).letters ≡ row_count tableau.now }
    ensures destabilizers { (i : ℕ)
        → i < row_count tableau.now
        → length (destabilizer_at tableau.now i).letters ≡ row_count tableau.now }
{
    let _ = &tableau.rows;
}

/// Any two rows commute, except a stabilizer row and the destabilizer row of the same number, which anticommute.
pub fn rows_anticommute_in_pairs<A: Allocator + Copy>(tableau: &Tableau<A>)
    ensures stabilizers { (i j : ℕ)
        → i < row_count tableau.now
        → j < row_count tableau.now
        → anticommute (stabilizer_at tableau.now i).letters (stabilizer_at tableau.now j).letters
        ≡ false }
    ensures destabilizers { (i j : ℕ)
        → i < row_count tableau.now
        → j < row_count tableau.now
        → anticommute (destabilizer_at tableau.now i).letters
        (destabilizer_at tableau.now j).letters
        ≡ false }
    ensures pair { (i : ℕ)
        → i < row_count tableau.now
        → anticommute (stabilizer_at tableau.now i).letters (destabilizer_at tableau.now i).letters
        ≡ true }
    ensures others { (i j : ℕ)
        → i < row_count tableau.now
        → j < row_count tableau.now
        → i ≢ j
        → anticommute (stabilizer_at tableau.now i).letters (destabilizer_at tableau.now j).letters
        ≡ false }
{
    let _ = &tableau.rows;
}

/// The words of the state form a commutative group without minus the identity, so p and -p are never both in it.
pub fn states_are_groups<A: Allocator + Copy>(tableau: &Tableau<A>)
    ensures { IsGroup (row_count tableau.now) (state_of tableau.now) }
{
    let _ = &tableau.rows;
}

/// The words of the state are the products of stabilizer rows.
pub fn states_hold_the_products<A: Allocator + Copy>(tableau: &Tableau<A>)
    ensures products { (choice : List Bool)
        → state_of tableau.now
        (chosen_product (row_count tableau.now) tableau.now.stabilizers choice)
        ≡ true }
    ensures members { (p : Signed)
        → length p.letters ≡ row_count tableau.now
        → state_of tableau.now p ≡ true
        → p ≡ stabilizer_product tableau.now p.letters }
{
    let _ = &tableau.rows;
}

/// A word that commutes with all stabilizer rows is, up to its sign, a product of them.
pub fn stabilizers_are_complete<A: Allocator + Copy>(tableau: &Tableau<A>)
    ensures { (p : Signed)
        → length p.letters ≡ row_count tableau.now
        → ((i : ℕ)
        → i < row_count tableau.now
        → anticommute p.letters (stabilizer_at tableau.now i).letters ≡ false)
        → (state_of tableau.now p || state_of tableau.now (with_sign_changed true p)) ≡ true }
{
    let _ = &tableau.rows;
}

/// Each word is, up to a power of i, a product of stabilizer and destabilizer rows.
pub fn rows_span_all_words<A: Allocator + Copy>(tableau: &Tableau<A>)
    ensures { (p : List Letter)
        → length p ≡ row_count tableau.now
        → letters_product (destabilizer_product tableau.now p).letters
        (stabilizer_product tableau.now p).letters
        ≡ p }
{
    let _ = &tableau.rows;
}
