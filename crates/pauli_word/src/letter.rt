ghost use Rattle.std.specs.Prelude.{◌≡◌};
ghost use Rattle.pauli_word.specs.Bits.{letter_of, x_bit, z_bit};
ghost use Rattle.pauli_word.specs.Letters.{letter_product, letters_clash};

/// A Pauli letter, the action of a Pauli word on one qubit.
#[derive(Clone, Copy, Debug, PartialEq, Eq)]
pub enum Letter {
    I,
    X,
    Y,
    Z,
}

impl Letter {
    /// Whether both letters are not I and they differ: these are the pairs that anticommute.
    #[inline(always)]
    pub fn clashes(self, other: Letter) -> bool
        ensures { result ≡ letters_clash self other }
    {
        self != Letter::I && other != Letter::I && self != other
    }

    /// The letter of the product, without its power of i.
    pub fn times(self, other: Letter) -> Letter
        ensures { result ≡ letter_product self other }
    {
        match (self, other) {
            (Letter::I, letter) | (letter, Letter::I) => letter,
            (Letter::X, Letter::X) | (Letter::Y, Letter::Y) | (Letter::Z, Letter::Z) => Letter::I,
            (Letter::X, Letter::Y) | (Letter::Y, Letter::X) => Letter::Z,
            (Letter::Y, Letter::Z) | (Letter::Z, Letter::Y) => Letter::X,
            (Letter::Z, Letter::X) | (Letter::X, Letter::Z) => Letter::Y,
        }
    }

    /// The letter of two bits, x and z: X has the first, Z the second, and Y both.
    #[inline(always)]
    pub fn of_bits(x: bool, z: bool) -> Letter
        ensures { result ≡ letter_of x z }
    {
        match (x, z) {
            (false, false) => Letter::I,
            (true, false) => Letter::X,
            (true, true) => Letter::Y,
            (false, true) => Letter::Z,
        }
    }

    #[inline(always)]
    pub(crate) fn x_bit(self) -> bool
        ensures { result ≡ x_bit self }
    {
        matches!(self, Letter::X | Letter::Y)
    }

    #[inline(always)]
    pub(crate) fn z_bit(self) -> bool
        ensures { result ≡ z_bit self }
    {
        matches!(self, Letter::Y | Letter::Z)
    }
}
