ghost use Rattle.std.specs.Prelude.{◌≡◌};
ghost use Rattle.stim_parser.specs.Instructions.{is_left_out, keyword_named};
ghost use Rattle.stim_parser.specs.Rows.{named_in_rows, is_among_rows};

use crate::operation::Operation;
use crate::table::Keyword;
use gate_table::Gate;
use pauli_word::Letter;

/// Each name that is no gate's, in capitals, and its keyword.
static OTHER_NAMES: [(&'static [u8], Keyword<Operation>); 24] = [
    (b"M", Keyword::Does(Operation::Measurement(Letter::Z))),
    (b"MZ", Keyword::Does(Operation::Measurement(Letter::Z))),
    (b"MX", Keyword::Does(Operation::Measurement(Letter::X))),
    (b"MY", Keyword::Does(Operation::Measurement(Letter::Y))),
    (b"R", Keyword::Does(Operation::QubitReset(Letter::Z))),
    (b"RZ", Keyword::Does(Operation::QubitReset(Letter::Z))),
    (b"RX", Keyword::Does(Operation::QubitReset(Letter::X))),
    (b"RY", Keyword::Does(Operation::QubitReset(Letter::Y))),
    (b"MR", Keyword::Does(Operation::MeasurementReset(Letter::Z))),
    (
        b"MRZ",
        Keyword::Does(Operation::MeasurementReset(Letter::Z)),
    ),
    (
        b"MRX",
        Keyword::Does(Operation::MeasurementReset(Letter::X)),
    ),
    (
        b"MRY",
        Keyword::Does(Operation::MeasurementReset(Letter::Y)),
    ),
    (b"MPP", Keyword::Does(Operation::ProductMeasurement)),
    (b"X_ERROR", Keyword::Does(Operation::PauliError(Letter::X))),
    (b"Y_ERROR", Keyword::Does(Operation::PauliError(Letter::Y))),
    (b"Z_ERROR", Keyword::Does(Operation::PauliError(Letter::Z))),
    (
        b"CORRELATED_ERROR",
        Keyword::Does(Operation::CorrelatedError),
    ),
    (b"E", Keyword::Does(Operation::CorrelatedError)),
    (b"DETECTOR", Keyword::Does(Operation::DetectorDeclaration)),
    (
        b"OBSERVABLE_INCLUDE",
        Keyword::Does(Operation::ObservableInclude),
    ),
    (b"TICK", Keyword::Does(Operation::Tick)),
    (b"QUBIT_COORDS", Keyword::Does(Operation::QubitCoordinates)),
    (b"SHIFT_COORDS", Keyword::Does(Operation::CoordinateShift)),
    (b"REPEAT", Keyword::Repeats),
];

/// The names that are known and left out, in capitals.
static LEFT_OUT_NAMES: [&'static [u8]; 29] = [
    b"DEPOLARIZE1",
    b"DEPOLARIZE2",
    b"PAULI_CHANNEL_1",
    b"PAULI_CHANNEL_2",
    b"HERALDED_ERASE",
    b"HERALDED_PAULI_CHANNEL_1",
    b"ELSE_CORRELATED_ERROR",
    b"I_ERROR",
    b"II",
    b"II_ERROR",
    b"MXX",
    b"MYY",
    b"MZZ",
    b"SPP",
    b"SPP_DAG",
    b"MPAD",
    b"CXSWAP",
    b"SWAPCX",
    b"CZSWAP",
    b"SWAPCZ",
    b"H_NXY",
    b"H_NXZ",
    b"H_NYZ",
    b"C_NXYZ",
    b"C_XNYZ",
    b"C_XYNZ",
    b"C_NZYX",
    b"C_ZNYX",
    b"C_ZYNX",
];

/// What the first row names whose name is the text, in any case.
#[tactic(auto, unfolding(crate::specs::Rows::named_in_rows))]
pub fn look_up<K: Copy>(rows: &[(&[u8], K)], text: &[u8]) -> Option<K>
    ensures { result ≡ named_in_rows rows.now text.now }
{
    rows.iter()
        .find(|row| row.0.eq_ignore_ascii_case(text))
        .map(|row| row.1)
}

/// Whether a name is among rows, in any case.
#[tactic(auto, unfolding(crate::specs::Rows::is_among_rows))]
fn is_among(rows: &[&[u8]], name: &[u8]) -> bool
    ensures { result ≡ is_among_rows rows.now name.now }
{
    rows.iter().any(|row| row.eq_ignore_ascii_case(name))
}

/// The keyword that a name names, in any case.
pub(crate) fn keyword_named(name: &[u8]) -> Option<Keyword<Operation>>
    ensures { result ≡ keyword_named name.now }
{
    match Gate::named(name) {
        Some(gate) => Some(Keyword::Does(Operation::Applies(gate))),
        None => look_up(&OTHER_NAMES, name),
    }
}

/// Whether a name is known and left out.
pub(crate) fn is_left_out(name: &[u8]) -> bool
    ensures { result ≡ is_left_out name.now }
{
    is_among(&LEFT_OUT_NAMES, name)
}
