//! Gates by their images: some that were worked by hand, and gates that are made of others.
use gate_table::Gate;
use pauli_word::Letter::{self, I, X, Y, Z};

/// Two letters, and whether their sign is minus.
type Signed = (Letter, Letter, bool);

/// The image of a signed pair of letters, under a gate of two qubits or one of a qubit at both.
fn image_of(gate: Gate, (first, second, negative): Signed) -> Signed {
    match gate.arity() {
        1 => {
            let (first, turned) = gate.image1(first);
            let (second, turned_too) = gate.image1(second);
            (first, second, negative ^ turned ^ turned_too)
        }
        2 => {
            let (first, second, turned) = gate.image2(first, second);
            (first, second, negative ^ turned)
        }
        _ => (first, second, negative),
    }
}

/// Names of gates, two letters, and their image. A gate of one qubit has I at the second.
const IMAGES: [(&[u8], Signed, Signed); 9] = [
    (b"H", (Y, I, false), (Y, I, true)),
    (b"S", (Y, I, false), (X, I, true)),
    (b"SQRT_X", (Y, I, false), (Z, I, false)),
    (b"C_XYZ", (Y, I, false), (Z, I, false)),
    (b"ISWAP", (Y, I, false), (Z, X, true)),
    (b"CY", (X, X, false), (Y, Z, true)),
    (b"SQRT_XX", (Y, I, false), (Z, X, false)),
    (b"SQRT_XX_DAG", (Z, X, false), (Y, I, false)),
    // X S-dagger is -Y, where S gives Y
    (b"sqrt_Z_dag", (X, I, false), (Y, I, true)),
];

fn has_image((name, letters, image): (&[u8], Signed, Signed)) -> bool {
    match Gate::named(name) {
        Some(gate) => image_of(gate, letters) == image,
        None => false,
    }
}

#[test]
fn images(rt: HostRuntime) {
    for row in IMAGES {
        assert!(rt; has_image(row), "{row:?}");
    }
    assert!(rt; Gate::named(b"sqrt_Z_dag") == Some(Gate::SDag));
}

#[test]
fn names_of_no_gate(rt: HostRuntime) {
    assert!(rt; Gate::named(b"MZ").is_none());
    assert!(rt; Gate::named(b"E").is_none());
}

/// Gates, each with those that do the same one after another. Those of one qubit act on both.
const IDENTITIES: [(Gate, &[Gate]); 4] = [
    (Gate::SqrtZZ, &[Gate::CZ, Gate::S]),
    (Gate::SqrtXX, &[Gate::H, Gate::SqrtZZ, Gate::H]),
    (Gate::SqrtYY, &[Gate::HYZ, Gate::SqrtZZ, Gate::HYZ]),
    (Gate::ISwap, &[Gate::Swap, Gate::CZ, Gate::S]),
];

/// The image under gates that act one after another.
fn image_of_all(gates: &[Gate], mut letters: Signed) -> Signed {
    for gate in gates {
        letters = image_of(*gate, letters);
    }
    letters
}

/// Whether a gate does what others do one after another, to a pair of either sign.
fn does_the_same(gate: Gate, gates: &[Gate], first: Letter, second: Letter) -> bool {
    let (plus, minus) = ((first, second, false), (first, second, true));
    image_of(gate, plus) == image_of_all(gates, plus)
        && image_of(gate, minus) == image_of_all(gates, minus)
}

/// The pairs of letters that differ in what a gate and others do to them.
fn differing(gate: Gate, gates: &[Gate]) -> u64 {
    let letters = [I, X, Y, Z];
    let mut count = 0u64;
    for place in 0..16 {
        if !does_the_same(gate, gates, letters[place / 4], letters[place % 4]) {
            count = count.saturating_add(1);
        }
    }
    count
}

#[test]
fn gates_made_of_others(rt: HostRuntime) {
    for (gate, gates) in IDENTITIES {
        assert!(rt; differing(gate, gates) == 0, "{gate:?}");
    }
    // and some pair tells apart what isn't the same
    assert!(rt; differing(Gate::SqrtZZDag, &[Gate::CZ, Gate::S]) > 0);
}
