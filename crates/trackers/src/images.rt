//! What the images of X and Z under a gate show.
ghost use Rattle.std.specs.Prelude.{◌≡◌, true};
ghost use Rattle.gate_table.specs.Images.{arity_of};
ghost use Rattle.pauli_word.specs.declared.letter.Letter.TheVariants.{I, X, Z};
ghost use Rattle.trackers.specs.private.PairImages.{AreBefore};
ghost use Rattle.trackers.specs.private.Transposed.{combined};

use gate_table::Gate;
use pauli_word::Letter;

/// The images of X and Z at each of two qubits: the letter of each at the first qubit, and at the second, where X and Z
/// stand at that qubit or at the other.
#[derive(Clone, Copy)]
pub(crate) struct PairImages {
    pub(crate) first_own: (Letter, Letter),
    pub(crate) first_other: (Letter, Letter),
    pub(crate) second_own: (Letter, Letter),
    pub(crate) second_other: (Letter, Letter),
}

/// Those under the inverse of a gate.
pub(crate) fn images_before(gate: Gate) -> PairImages
    requires { arity_of gate ≡ 2 }
    ensures { AreBefore gate result }
{
    let inverse = gate.inverse();
    let xa = inverse.image2(Letter::X, Letter::I);
    let za = inverse.image2(Letter::Z, Letter::I);
    let xb = inverse.image2(Letter::I, Letter::X);
    let zb = inverse.image2(Letter::I, Letter::Z);
    PairImages {
        first_own: (xa.0, za.0),
        first_other: (xb.0, zb.0),
        second_own: (xb.1, zb.1),
        second_other: (xa.1, za.1),
    }
}

/// Whether X and Z are their own images.
pub(crate) fn is_kept(images: (Letter, Letter)) -> bool
    ensures { result ≡ true → (images.0 ≡ X) × (images.1 ≡ Z) }
{
    matches!(images, (Letter::X, Letter::Z))
}

/// Whether the images of X and Z are both I.
pub(crate) fn is_left(images: (Letter, Letter)) -> bool
    ensures { result ≡ true → (images.0 ≡ I) × (images.1 ≡ I) }
{
    matches!(images, (Letter::I, Letter::I))
}

/// Whether the image of a letter is I, from those of X and Z.
pub(crate) fn is_lost(images: (Letter, Letter), letter: Letter) -> bool
    ensures { result ≡ true → combined images.0 images.1 letter ≡ I }
{
    match letter {
        Letter::I => true,
        Letter::X => matches!(images.0, Letter::I),
        Letter::Z => matches!(images.1, Letter::I),
        Letter::Y => is_left(images),
    }
}
