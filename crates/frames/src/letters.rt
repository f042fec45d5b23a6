ghost use Rattle.std.specs.Prelude.{◌≡◌, ◌&&◌, ℕ, length, replicate};
ghost use Rattle.forward_sim.specs.References.{terms_at};
ghost use Rattle.gate_table.specs.Images.{arity_of, image1, image2};
ghost use Rattle.bit_rows.specs.Lanes.{lane_bit};
ghost use Rattle.pauli_word.specs.Bits.{x_bit, z_bit};
ghost use Rattle.pauli_word.specs.Letters.{letters_clash};
ghost use Rattle.pauli_word.specs.declared.letter.Letter.TheVariants.{I};
ghost use Rattle.step_model.specs.Listing.{word_of_terms};
ghost use Rattle.step_model.specs.WellFormed.{TermsFit};
ghost use Rattle.frames.specs.LaneFrames.{GoesTo};
ghost use Rattle.frames.specs.LaneLetters.{letter_in, none_at, times_where};
ghost use Rattle.frames.specs.private.Followed.{letters_alone, multiplied_in};

use bit_rows::lanes::xor;
use gate_table::Gate;
use pauli_word::Letter;

/// The letters of 64 runs at one qubit, as their bits x and z.
#[derive(Clone, Copy, Drop)]
pub(crate) struct LaneLetters {
    pub(crate) x: u64,
    pub(crate) z: u64,
}

impl LaneLetters {
    /// I in each run.
    pub(crate) fn none() -> LaneLetters
        ensures same { result ≡ none_at }
        ensures letters { (j : ℕ) → letter_in j result ≡ I }
    {
        LaneLetters { x: 0, z: 0 }
    }

    /// The runs whose letter clashes with this one.
    pub(crate) fn clashes(self, letter: Letter) -> u64
        ensures { (j : ℕ) → lane_bit j result ≡ letters_clash (letter_in j self) letter }
    {
        match letter {
            Letter::I => 0,
            Letter::X => self.z,
            Letter::Y => xor(self.x, self.z),
            Letter::Z => self.x,
        }
    }

    /// The letters, multiplied by this one in these runs. There is no branch on the letter, since the letters of a word
    /// come in no order that could be predicted.
    #[inline(always)]
    pub(crate) fn times(self, letter: Letter, runs: u64) -> LaneLetters
        ensures { (j : ℕ)
            → letter_in j result ≡ times_where (lane_bit j runs) letter (letter_in j self) }
    {
        LaneLetters {
            x: xor(self.x, lanes_where(has_x(letter), runs)),
            z: xor(self.z, lanes_where(has_z(letter), runs)),
        }
    }

    /// The images under a gate of one qubit, their signs left out.
    pub(crate) fn image(self, gate: Gate) -> LaneLetters
        requires { arity_of gate ≡ 1 }
        ensures { (j : ℕ) → letter_in j result ≡ (image1 gate (letter_in j self)).0 }
    {
        let (x, _) = gate.image1(Letter::X);
        let (z, _) = gate.image1(Letter::Z);
        LaneLetters::none().times_images(self, x, z)
    }

    /// The images of the letters of two qubits under a gate of two qubits, their signs left out.
    pub(crate) fn images(gate: Gate, a: LaneLetters, b: LaneLetters) -> (LaneLetters, LaneLetters)
        requires { arity_of gate ≡ 2 }
        ensures first { (j : ℕ)
            → letter_in j result.0 ≡ (image2 gate (letter_in j a) (letter_in j b)).0 }
        ensures second { (j : ℕ)
            → letter_in j result.1 ≡ (image2 gate (letter_in j a) (letter_in j b)).1 }
    {
        let (ax, bx, _) = gate.image2(Letter::X, Letter::I);
        let (az, bz, _) = gate.image2(Letter::Z, Letter::I);
        let (ax_of_b, bx_of_b, _) = gate.image2(Letter::I, Letter::X);
        let (az_of_b, bz_of_b, _) = gate.image2(Letter::I, Letter::Z);
        let first = LaneLetters::none().times_images(a, ax, az);
        let second = LaneLetters::none().times_images(a, bx, bz);
        (
            first.times_images(b, ax_of_b, az_of_b),
            second.times_images(b, bx_of_b, bz_of_b),
        )
    }

    // The letters, multiplied by the images of others under a map that makes `x` of X and `z` of Z.
    fn times_images(self, others: LaneLetters, x: Letter, z: Letter) -> LaneLetters
        ensures { (j : ℕ)
            → letter_in j result
            ≡ times_where (lane_bit j others.z) z
            (times_where (lane_bit j others.x) x (letter_in j self)) }
    {
        self.times(x, others.x).times(z, others.z)
    }
}

#[inline(always)]
fn has_x(letter: Letter) -> bool
    ensures { result ≡ x_bit letter }
{
    matches!(letter, Letter::X | Letter::Y)
}

#[inline(always)]
fn has_z(letter: Letter) -> bool
    ensures { result ≡ z_bit letter }
{
    matches!(letter, Letter::Y | Letter::Z)
}

/// These lanes where `some`, otherwise none.
#[inline(always)]
fn lanes_where(some: bool, lanes: u64) -> u64
    ensures { (j : ℕ) → lane_bit j result ≡ (some && lane_bit j lanes) }
{
    if some { lanes } else { 0 }
}

/// Makes the letters I at each qubit.
pub(crate) fn clear_all(letters: &mut [LaneLetters])
    ensures { letters.new ≡ replicate (length letters.old) none_at }
{
    letters.fill(LaneLetters::none());
}

/// Multiplies by a letter, in these runs, the letters at each of these qubits. It is lent the letters
/// alone, so that the loop keeps their address in a register.
#[inline(always)]
pub(crate) fn multiply_letter(
    letters: &mut [LaneLetters],
    letter: Letter,
    qubits: &[u16],
    runs: u64,
)
    requires { TermsFit (length letters.old) (terms_at letter qubits.now) }
    ensures { GoesTo (letters_alone letters.old) (letters_alone letters.new)
        (multiplied_in runs (word_of_terms (length letters.old) (terms_at letter qubits.now))) }
{
    let mut left = qubits.len();
    while left > 0 {
        left -= 1;
        let qubit = qubits[left] as usize;
        let here = letters[qubit];
        letters[qubit] = here.times(letter, runs);
    }
}
