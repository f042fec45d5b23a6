ghost use Rattle.std.specs.Prelude.{◌≡◌, ◌↔◌, ◌<◌, ◌≤◌, length, slice_set, not, IfOk, IsTrue};
ghost use Rattle.pauli_word.specs.declared.letter.Letter.TheVariants.{Z};
ghost use Rattle.pauli_word.specs.Letters.{is_minus, letters_clash};
ghost use Rattle.pauli_word.specs.Words.{letter_at, anticommute, letters_power, product, lowest_X_or_Y, IsNextLetter};
ghost use Rattle.pauli_word.specs.Groups.{identity_word};

use crate::letter::Letter;
use bit_rows::BitRow;
use std::alloc::{AllocError, Allocator};
use std::marker::Model;

/// A signed Pauli word: one letter a qubit, and a sign.
///
/// It is kept as two rows of bits, 64 qubits to a machine word. Only `identity` and `copy` allocate.
pub struct Word<A: Allocator + Copy> {
    x: BitRow<A>,
    z: BitRow<A>,
    negative: bool,
}

impl<A: Allocator + Copy> Model for Word<A> {
    ghost use Rattle.std.specs.Prelude.{◌≡◌, length};
    ghost use Rattle.pauli_word.specs.Bits.{letters_of};
    ghost use Rattle.pauli_word.specs.Words.{Signed};

    ghost Value = { Signed };

    ghost view = { λ w. record { letters = letters_of w.x w.z; negative = w.negative } };

    ghost invariant = { λ w. length w.x ≡ length w.z };
}

// Written out, so that it is a call in the proof of each function that owns one.
impl<A: Allocator + Copy> Drop for Word<A> {
    fn drop(self) {
        let Word { x, z, negative: _ } = self;
        drop(x);
        drop(z);
    }
}

impl<A: Allocator + Copy> Word<A> {
    /// The word of `n` letters I, of sign plus.
    pub fn identity(alloc: A, n: usize) -> Result<Self, AllocError>
        ensures { IfOk result (λ w. w ≡ identity_word n) }
    {
        Ok(Word {
            x: BitRow::zeros(alloc, n)?,
            z: BitRow::zeros(alloc, n)?,
            negative: false,
        })
    }

    /// A copy, in memory of its own.
    pub fn copy(&self) -> Result<Self, AllocError>
        ensures { IfOk result (λ w. w ≡ self.now) }
    {
        Ok(Word {
            x: self.x.copy()?,
            z: self.z.copy()?,
            negative: self.negative,
        })
    }

    /// The letter at a qubit.
    #[inline(always)]
    pub fn letter(&self, qubit: usize) -> Letter
        requires { qubit < length self.now.letters }
        ensures { result ≡ letter_at self.now.letters qubit }
    {
        let bits = BitRow::get_both(&self.x, &self.z, qubit);
        Letter::of_bits(bits.0, bits.1)
    }

    /// Whether the letter at a qubit is X or Y, for which half of its bits are read.
    #[inline(always)]
    pub fn has_x_or_y(&self, qubit: usize) -> bool
        requires { qubit < length self.now.letters }
        ensures { result ≡ letters_clash (letter_at self.now.letters qubit) Z }
    {
        self.x.get(qubit)
    }

    /// Puts a letter at a qubit.
    #[inline(always)]
    pub fn set_letter(&mut self, qubit: usize, letter: Letter)
        requires { qubit < length self.old.letters }
        ensures { self.new ≡ record self.old { letters = slice_set self.old.letters qubit letter } }
    {
        self.x.set(qubit, letter.x_bit());
        self.z.set(qubit, letter.z_bit());
    }

    /// Whether the sign is minus.
    #[inline(always)]
    pub fn sign(&self) -> bool
        ensures { result ≡ self.now.negative }
    {
        self.negative
    }

    /// Makes the sign minus where `negative`, otherwise plus.
    #[inline(always)]
    pub fn set_sign(&mut self, negative: bool)
        ensures { self.new ≡ record self.old { negative = negative } }
    {
        self.negative = negative;
    }

    /// Whether the two words commute.
    pub fn commutes(&self, other: &Word<A>) -> bool
        requires { length self.now.letters ≡ length other.now.letters }
        ensures { result ≡ not (anticommute self.now.letters other.now.letters) }
    {
        self.x.and_parity(&other.z) == self.z.and_parity(&other.x)
    }

    /// The lowest qubit with X or Y.
    pub fn lowest_x_or_y(&self) -> Option<usize>
        ensures { result ≡ lowest_X_or_Y self.now.letters }
    {
        self.x.first_one()
    }

    /// The lowest qubit from `start` on with a letter other than I.
    pub fn next_letter(&self, start: usize) -> Option<usize>
        ensures { IsNextLetter self.now.letters start result }
    {
        BitRow::first_one_from(&self.x, &self.z, start)
    }

    /// Whether it has 64 letters or less.
    #[inline(always)]
    pub fn is_short(&self) -> bool
        ensures { IsTrue result ↔ (length self.now.letters ≤ 64) }
    {
        self.x.is_short()
    }

    /// Multiplies by a word from the right. Answers whether the product of the letters brings the factor -1 or, where
    /// the two words anticommute, -i. In the sign, i counts as 1 and -i as -1.
    #[inline(always)]
    pub fn times(&mut self, other: &Word<A>) -> bool
        requires { length self.old.letters ≡ length other.now.letters }
        ensures product { self.new ≡ product self.old other.now }
        ensures brings_minus { result
            ≡ is_minus (letters_power self.old.letters other.now.letters) }
    {
        // -1 and -i are the powers 2 and 3
        let power = BitRow::multiply(&mut self.x, &mut self.z, &other.x, &other.z);
        let minus = power >= 2;
        self.negative = self.negative ^ other.negative ^ minus;
        minus
    }

    /// Makes this word equal to another of its length.
    pub fn copy_from(&mut self, other: &Word<A>)
        requires { length self.old.letters ≡ length other.now.letters }
        ensures { self.new ≡ other.now }
    {
        self.x.copy_from(&other.x);
        self.z.copy_from(&other.z);
        self.set_sign(other.negative);
    }

    /// Makes this word the identity, of sign plus.
    pub fn clear(&mut self)
        ensures { self.new ≡ identity_word (length self.old.letters) }
    {
        self.x.clear();
        self.z.clear();
        self.set_sign(false);
    }
}
