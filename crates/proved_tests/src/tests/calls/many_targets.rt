//! Sets of some of two thousand targets: a list while they are few, a row of bits once they are many, and a list again.
ghost use Rattle.std.specs.Prelude.{◌≡◌, ◌≤◌, length};

use pauli_word::Letter;
use std::alloc::{AllocError, Global};
use trackers::{DenseWords, QubitSets, SparseSet, TargetSet, Tracker};

/// Toggles targets one after another, ascending: for a list no order is worse.
fn toggle_span(set: &mut SparseSet<'_, Global>, from: u32, to: u32) -> Result<(), AllocError>
    requires { to ≤ length set.old }
    ensures { length set.new ≡ length set.old }
{
    for target in from..to {
        set.toggle(target)?;
    }
    Ok(())
}

/// Whether 62 targets are a list, which takes no more memory than a row, and whether more are a row, and 3 of them a list.
fn changes(alloc: Global) -> Result<bool, AllocError> {
    let mut set = SparseSet::none(&alloc, 2000);
    toggle_span(&mut set, 0, 62)?;
    let few = set.kept().is_some();
    toggle_span(&mut set, 62, 100)?;
    let many = set.kept().is_none() && set.count() == 100;
    let mut listed = Vec::new(alloc);
    set.list(&mut listed)?;
    toggle_span(&mut set, 3, 100)?;
    let again = set.kept() == Some([2, 1, 0].as_slice()) && set.count() == 3;
    Ok(few && many && listed.len() == 100 && listed.last() == Some(&99) && again)
}

/// Whether a list plus a row is a row, the row plus that is the list again, and the row plus the list is the first row.
fn adds_up(alloc: Global) -> Result<bool, AllocError> {
    let mut set = SparseSet::none(&alloc, 2000);
    let mut other = SparseSet::none(&alloc, 2000);
    let mut spare = SparseSet::none(&alloc, 2000);
    toggle_span(&mut set, 99, 102)?;
    toggle_span(&mut other, 0, 100)?;
    set.add(&other, &mut spare)?;
    let many = set.kept().is_none();
    other.add(&set, &mut spare)?;
    let few = other.kept() == Some([101, 100, 99].as_slice());
    set.add(&other, &mut spare)?;
    let mut listed = Vec::new(alloc);
    set.list(&mut listed)?;
    Ok(many && few && listed.len() == 100 && listed.last() == Some(&99))
}

/// Whether a Y of each of two targets is four letters, and there are none at another qubit.
fn counts_letters<T: Tracker>(words: &mut T) -> Result<bool, AllocError>
    requires qubits { (T.tracked words.old).qubits ≡ 2 }
    requires targets { length (T.tracked words.old).words ≡ 3 }
{
    words.add(&[0, 2], Letter::Y, 1)?;
    Ok(words.letters_at(0) == 0 && words.letters_at(1) == 4)
}

fn dense_counts(alloc: Global) -> Result<bool, AllocError> {
    counts_letters(&mut DenseWords::new(alloc, 2, 3)?)
}

fn sparse_counts(alloc: Global) -> Result<bool, AllocError> {
    counts_letters(&mut QubitSets::new(&alloc, 2, 3)?)
}

#[test]
fn lists_and_rows(rt: HostRuntime) {
    assert!(rt; matches!(changes(rt.alloc()), Ok(true)));
    assert!(rt; matches!(adds_up(rt.alloc()), Ok(true)));
}

#[test]
fn letters(rt: HostRuntime) {
    assert!(rt; matches!(dense_counts(rt.alloc()), Ok(true)));
    assert!(rt; matches!(sparse_counts(rt.alloc()), Ok(true)));
}
