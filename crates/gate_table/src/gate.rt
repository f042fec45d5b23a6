ghost use Rattle.std.specs.Prelude.{◌≡◌};
ghost use Rattle.gate_table.specs.private.Rows.{named_in_rows};

use crate::names::NAMES;
use crate::table::{ONE_QUBIT_GATES, ONE_QUBIT_IMAGES, TWO_QUBIT_IMAGES};
use pauli_word::Letter;

/// A unitary gate. Names, matrices and images follow Stim's gate reference.
#[derive(Clone, Copy, Debug, PartialEq, Eq)]
pub enum Gate {
    I,
    X,
    Y,
    Z,
    H,
    HXY,
    HYZ,
    S,
    SDag,
    SqrtX,
    SqrtXDag,
    SqrtY,
    SqrtYDag,
    CXYZ,
    CZYX,
    CX,
    CY,
    CZ,
    XCX,
    XCY,
    XCZ,
    YCX,
    YCY,
    YCZ,
    Swap,
    ISwap,
    ISwapDag,
    SqrtXX,
    SqrtXXDag,
    SqrtYY,
    SqrtYYDag,
    SqrtZZ,
    SqrtZZDag,
}

impl Gate {
    ghost use Rattle.gate_table.specs.Images.{arity_of, image1, image2, inverse_of};
    ghost use Rattle.gate_table.specs.Names.{gate_named};

    /// The gate that a text names, by its usual name or an alias, in any case. An instruction that is no gate,
    /// as a measurement or a reset, has no name here.
    pub fn named(name: &[u8]) -> Option<Gate>
        ensures { result ≡ gate_named name.now }
    {
        look_up(&NAMES, name)
    }

    /// How many qubits the gate acts on, 1 or 2.
    pub fn arity(self) -> u8
        ensures { result ≡ arity_of self }
    {
        if (self as usize) < ONE_QUBIT_GATES {
            1
        } else {
            2
        }
    }

    /// The image U P U-dagger of a letter P under the gate U, and whether its sign is minus.
    pub fn image1(self, letter: Letter) -> (Letter, bool)
        requires { arity_of self ≡ 1 }
        ensures { result ≡ image1 self letter }
    {
        ONE_QUBIT_IMAGES[self as usize][letter as usize]
    }

    /// The image of a pair of letters, that of the first qubit first, and whether its sign is minus.
    pub fn image2(self, first: Letter, second: Letter) -> (Letter, Letter, bool)
        requires { arity_of self ≡ 2 }
        ensures { result ≡ image2 self first second }
    {
        TWO_QUBIT_IMAGES[self as usize - ONE_QUBIT_GATES][first as usize][second as usize]
    }

    /// The gate that undoes this one.
    pub fn inverse(self) -> Gate
        ensures { result ≡ inverse_of self }
    {
        match self {
            Gate::S => Gate::SDag,
            Gate::SDag => Gate::S,
            Gate::SqrtX => Gate::SqrtXDag,
            Gate::SqrtXDag => Gate::SqrtX,
            Gate::SqrtY => Gate::SqrtYDag,
            Gate::SqrtYDag => Gate::SqrtY,
            Gate::CXYZ => Gate::CZYX,
            Gate::CZYX => Gate::CXYZ,
            Gate::ISwap => Gate::ISwapDag,
            Gate::ISwapDag => Gate::ISwap,
            Gate::SqrtXX => Gate::SqrtXXDag,
            Gate::SqrtXXDag => Gate::SqrtXX,
            Gate::SqrtYY => Gate::SqrtYYDag,
            Gate::SqrtYYDag => Gate::SqrtYY,
            Gate::SqrtZZ => Gate::SqrtZZDag,
            Gate::SqrtZZDag => Gate::SqrtZZ,
            own_inverse => own_inverse,
        }
    }
}

/// The gate of the first row whose name is the text, in any case.
#[tactic(auto, unfolding(crate::specs::private::Rows::named_in_rows))]
fn look_up(rows: &[(&[u8], Gate)], text: &[u8]) -> Option<Gate>
    ensures { result ≡ named_in_rows rows.now text.now }
{
    rows.iter()
        .find(|row| row.0.eq_ignore_ascii_case(text))
        .map(|row| row.1)
}
