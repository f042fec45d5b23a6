//! The targets whose words anticommute with a product of letters: the sum of the sets of those that clash with each.
ghost use Rattle.std.specs.Prelude.{◌≡◌, ◌<◌, length, map, All, OnOk};
ghost use Rattle.std.specs.List.{range_with_len};
ghost use Rattle.pauli_word.specs.Words.{anticommute};
ghost use Rattle.step_model.specs.Listing.{word_of_terms};
ghost use Rattle.trackers.specs.private.Transposed.{word_at};

use crate::column::Column;
use crate::target_set::TargetSet;
use std::alloc::AllocError;
use step_model::Term;

/// So many letters are added up one after another. The sum of more would be gone over again for each of them.
const FEW_LETTERS: usize = 8;

/// Makes a set that of the targets whose words anticommute with the product of these letters at qubits. Those of many
/// letters are added up in halves, so a target is gone over as often as these can be halved. A row of bits takes as long for few
/// targets as for many: it is added up letter by letter. (A spare set is a list wherever sets may be lists.)
#[inline(never)]
pub(crate) fn clashing<S: TargetSet>(
    columns: &[Column<S>],
    terms: &[Term],
    set: &mut S,
    spare: &mut S,
) -> Result<(), AllocError>
    requires terms { All (λ term. term.qubit < length columns.now) terms.now }
    requires long { All (λ column. length column ≡ length (S.bits set.old)) columns.now }
    requires spare { length (S.bits spare.old) ≡ length (S.bits set.old) }
    ensures ok { OnOk result
        (S.bits set.new
        ≡ map
        (λ t. anticommute (word_at columns.now t)
        (word_of_terms (length columns.now) terms.now))
        (range_with_len 0 (length (S.bits set.old)))) }
    ensures len { length (S.bits set.new) ≡ length (S.bits set.old) }
    ensures spare { length (S.bits spare.new) ≡ length (S.bits spare.old) }
{
    if terms.len() <= FEW_LETTERS || spare.kept().is_none() {
        return clashing_in_turn(columns, terms, set, spare);
    }
    let (front, back) = terms.split_at(terms.len() / 2);

    // Qubits and their detectors mostly ascend together, so the targets of the back half are put before those of the front.
    clashing(columns, back, set, spare)?;
    spare.clear();
    let mut other = spare.copy()?;
    clashing(columns, front, &mut other, spare)?;
    set.add(&other, spare)
}

// The same, letter by letter.
fn clashing_in_turn<S: TargetSet>(
    columns: &[Column<S>],
    terms: &[Term],
    set: &mut S,
    spare: &mut S,
) -> Result<(), AllocError>
    requires terms { All (λ term. term.qubit < length columns.now) terms.now }
    requires long { All (λ column. length column ≡ length (S.bits set.old)) columns.now }
    requires spare { length (S.bits spare.old) ≡ length (S.bits set.old) }
    ensures ok { OnOk result
        (S.bits set.new
        ≡ map
        (λ t. anticommute (word_at columns.now t)
        (word_of_terms (length columns.now) terms.now))
        (range_with_len 0 (length (S.bits set.old)))) }
    ensures len { length (S.bits set.new) ≡ length (S.bits set.old) }
    ensures spare { length (S.bits spare.new) ≡ length (S.bits spare.old) }
{
    set.clear();
    for term in terms {
        columns[term.qubit as usize].toggle_clashing(term.letter, set, spare)?;
    }
    Ok(())
}
