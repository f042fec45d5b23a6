//! The images of all letters and pairs of letters, worked out from those of X and Z, which Stim's gate reference gives
//! as stabilizer generators.
use pauli_word::Letter;
use pauli_word::Letter::{I, X, Y, Z};

/// How many gates act on one qubit. They come first in `Gate`.
pub const ONE_QUBIT_GATES: usize = 15;

/// For each one-qubit gate, in the order of `Gate`: the images of I, X, Y and Z. The sign is true for minus.
#[rattlefmt::skip]
pub static ONE_QUBIT_IMAGES: [[(Letter, bool); 4]; ONE_QUBIT_GATES] = [
    [(I, false),  (X, false),  (Y, false),  (Z, false)], // I
    [(I, false),  (X, false),  (Y, true),   (Z, true) ], // X
    [(I, false),  (X, true),   (Y, false),  (Z, true) ], // Y
    [(I, false),  (X, true),   (Y, true),   (Z, false)], // Z
    [(I, false),  (Z, false),  (Y, true),   (X, false)], // H
    [(I, false),  (Y, false),  (X, false),  (Z, true) ], // HXY
    [(I, false),  (X, true),   (Z, false),  (Y, false)], // HYZ
    [(I, false),  (Y, false),  (X, true),   (Z, false)], // S
    [(I, false),  (Y, true),   (X, false),  (Z, false)], // SDag
    [(I, false),  (X, false),  (Z, false),  (Y, true) ], // SqrtX
    [(I, false),  (X, false),  (Z, true),   (Y, false)], // SqrtXDag
    [(I, false),  (Z, true),   (Y, false),  (X, false)], // SqrtY
    [(I, false),  (Z, false),  (Y, false),  (X, true) ], // SqrtYDag
    [(I, false),  (Y, false),  (Z, false),  (X, false)], // CXYZ
    [(I, false),  (Z, false),  (X, false),  (Y, false)], // CZYX
];

/// For each two-qubit gate, in the order of `Gate`: the images of the pairs of letters. The first letter of the
/// pair names the row, and the second the column, both in the order I, X, Y, Z.
#[rattlefmt::skip]
pub static TWO_QUBIT_IMAGES: [[[(Letter, Letter, bool); 4]; 4]; 18] = [
    // CX
    [[(I, I, false),  (I, X, false),  (Z, Y, false),  (Z, Z, false)],
     [(X, X, false),  (X, I, false),  (Y, Z, false),  (Y, Y, true)],
     [(Y, X, false),  (Y, I, false),  (X, Z, true),   (X, Y, false)],
     [(Z, I, false),  (Z, X, false),  (I, Y, false),  (I, Z, false)]],
    // CY
    [[(I, I, false),  (Z, X, false),  (I, Y, false),  (Z, Z, false)],
     [(X, Y, false),  (Y, Z, true),   (X, I, false),  (Y, X, false)],
     [(Y, Y, false),  (X, Z, false),  (Y, I, false),  (X, X, true)],
     [(Z, I, false),  (I, X, false),  (Z, Y, false),  (I, Z, false)]],
    // CZ
    [[(I, I, false),  (Z, X, false),  (Z, Y, false),  (I, Z, false)],
     [(X, Z, false),  (Y, Y, false),  (Y, X, true),   (X, I, false)],
     [(Y, Z, false),  (X, Y, true),   (X, X, false),  (Y, I, false)],
     [(Z, I, false),  (I, X, false),  (I, Y, false),  (Z, Z, false)]],
    // XCX
    [[(I, I, false),  (I, X, false),  (X, Y, false),  (X, Z, false)],
     [(X, I, false),  (X, X, false),  (I, Y, false),  (I, Z, false)],
     [(Y, X, false),  (Y, I, false),  (Z, Z, false),  (Z, Y, true)],
     [(Z, X, false),  (Z, I, false),  (Y, Z, true),   (Y, Y, false)]],
    // XCY
    [[(I, I, false),  (X, X, false),  (I, Y, false),  (X, Z, false)],
     [(X, I, false),  (I, X, false),  (X, Y, false),  (I, Z, false)],
     [(Y, Y, false),  (Z, Z, true),   (Y, I, false),  (Z, X, false)],
     [(Z, Y, false),  (Y, Z, false),  (Z, I, false),  (Y, X, true)]],
    // XCZ
    [[(I, I, false),  (X, X, false),  (X, Y, false),  (I, Z, false)],
     [(X, I, false),  (I, X, false),  (I, Y, false),  (X, Z, false)],
     [(Y, Z, false),  (Z, Y, false),  (Z, X, true),   (Y, I, false)],
     [(Z, Z, false),  (Y, Y, true),   (Y, X, false),  (Z, I, false)]],
    // YCX
    [[(I, I, false),  (I, X, false),  (Y, Y, false),  (Y, Z, false)],
     [(X, X, false),  (X, I, false),  (Z, Z, true),   (Z, Y, false)],
     [(Y, I, false),  (Y, X, false),  (I, Y, false),  (I, Z, false)],
     [(Z, X, false),  (Z, I, false),  (X, Z, false),  (X, Y, true)]],
    // YCY
    [[(I, I, false),  (Y, X, false),  (I, Y, false),  (Y, Z, false)],
     [(X, Y, false),  (Z, Z, false),  (X, I, false),  (Z, X, true)],
     [(Y, I, false),  (I, X, false),  (Y, Y, false),  (I, Z, false)],
     [(Z, Y, false),  (X, Z, true),   (Z, I, false),  (X, X, false)]],
    // YCZ
    [[(I, I, false),  (Y, X, false),  (Y, Y, false),  (I, Z, false)],
     [(X, Z, false),  (Z, Y, true),   (Z, X, false),  (X, I, false)],
     [(Y, I, false),  (I, X, false),  (I, Y, false),  (Y, Z, false)],
     [(Z, Z, false),  (X, Y, false),  (X, X, true),   (Z, I, false)]],
    // Swap
    [[(I, I, false),  (X, I, false),  (Y, I, false),  (Z, I, false)],
     [(I, X, false),  (X, X, false),  (Y, X, false),  (Z, X, false)],
     [(I, Y, false),  (X, Y, false),  (Y, Y, false),  (Z, Y, false)],
     [(I, Z, false),  (X, Z, false),  (Y, Z, false),  (Z, Z, false)]],
    // ISwap
    [[(I, I, false),  (Y, Z, false),  (X, Z, true),   (Z, I, false)],
     [(Z, Y, false),  (X, X, false),  (Y, X, false),  (I, Y, false)],
     [(Z, X, true),   (X, Y, false),  (Y, Y, false),  (I, X, true)],
     [(I, Z, false),  (Y, I, false),  (X, I, true),   (Z, Z, false)]],
    // ISwapDag
    [[(I, I, false),  (Y, Z, true),   (X, Z, false),  (Z, I, false)],
     [(Z, Y, true),   (X, X, false),  (Y, X, false),  (I, Y, true)],
     [(Z, X, false),  (X, Y, false),  (Y, Y, false),  (I, X, false)],
     [(I, Z, false),  (Y, I, true),   (X, I, false),  (Z, Z, false)]],
    // SqrtXX
    [[(I, I, false),  (I, X, false),  (X, Z, false),  (X, Y, true)],
     [(X, I, false),  (X, X, false),  (I, Z, false),  (I, Y, true)],
     [(Z, X, false),  (Z, I, false),  (Y, Y, false),  (Y, Z, false)],
     [(Y, X, true),   (Y, I, true),   (Z, Y, false),  (Z, Z, false)]],
    // SqrtXXDag
    [[(I, I, false),  (I, X, false),  (X, Z, true),   (X, Y, false)],
     [(X, I, false),  (X, X, false),  (I, Z, true),   (I, Y, false)],
     [(Z, X, true),   (Z, I, true),   (Y, Y, false),  (Y, Z, false)],
     [(Y, X, false),  (Y, I, false),  (Z, Y, false),  (Z, Z, false)]],
    // SqrtYY
    [[(I, I, false),  (Y, Z, true),   (I, Y, false),  (Y, X, false)],
     [(Z, Y, true),   (X, X, false),  (Z, I, true),   (X, Z, false)],
     [(Y, I, false),  (I, Z, true),   (Y, Y, false),  (I, X, false)],
     [(X, Y, false),  (Z, X, false),  (X, I, false),  (Z, Z, false)]],
    // SqrtYYDag
    [[(I, I, false),  (Y, Z, false),  (I, Y, false),  (Y, X, true)],
     [(Z, Y, false),  (X, X, false),  (Z, I, false),  (X, Z, false)],
     [(Y, I, false),  (I, Z, false),  (Y, Y, false),  (I, X, true)],
     [(X, Y, true),   (Z, X, false),  (X, I, true),   (Z, Z, false)]],
    // SqrtZZ
    [[(I, I, false),  (Z, Y, false),  (Z, X, true),   (I, Z, false)],
     [(Y, Z, false),  (X, X, false),  (X, Y, false),  (Y, I, false)],
     [(X, Z, true),   (Y, X, false),  (Y, Y, false),  (X, I, true)],
     [(Z, I, false),  (I, Y, false),  (I, X, true),   (Z, Z, false)]],
    // SqrtZZDag
    [[(I, I, false),  (Z, Y, true),   (Z, X, false),  (I, Z, false)],
     [(Y, Z, true),   (X, X, false),  (X, Y, false),  (Y, I, true)],
     [(X, Z, false),  (Y, X, false),  (Y, Y, false),  (X, I, false)],
     [(Z, I, false),  (I, Y, true),   (I, X, false),  (Z, Z, false)]],
];
