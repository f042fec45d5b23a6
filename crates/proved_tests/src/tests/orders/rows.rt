//! Orders on texts, with what is written and how it ends, worked by hand. The sweeps over memory and devices take each of them,
//! so a new order is a row more.
use engine::{Order, Status};

/// Every kind of line, of step and of target, of which none is random. Qubit 4 ends as 0: the feedback flips it in both turns,
/// since the record is inverted.
const EVERYTHING: &str = "\
# every kind of line
QUBIT_COORDS(0.5, -1e2) 0 1
R 0 1
RX\t2
RY 3
TICK
H[tag # 1] 4\r
S 4
C_XYZ 4
SWAP 4 0
SQRT_XX 4 0
SQRT_XX_DAG 4 0
REPEAT 2 { # two
    X_ERROR(0.01) 0
    Z_ERROR(0.5) 0
    Y_ERROR(0.02) 3
    E(1e-3) X0 z1

    CNOT 0 1
    MR(.25) !1
    CX rec[-1] 4
    REPEAT 3{
        MPP(0.125) !Z0 * Z1 Y3
    }
    SHIFT_COORDS(0, -1)
    DETECTOR(5, 0) rec[-1] rec[-3]
}
MX 2
MY(0) 3
MRX 2
MRY 3
M 0 1 4
OBSERVABLE_INCLUDE(1) rec[-3]
";

/// The same with faults that happen always or never, so that each shot is one: the fault of X happens in both turns and at the end, and
/// all products are flipped. In the first turn the measured record is 0, so nothing is fed back to qubit 4.
const CERTAIN: &str = "\
R 0 1
RX 2
RY 3
H 4
S 4
C_XYZ 4
SWAP 4 0
SQRT_XX 4 0
SQRT_XX_DAG 4 0
REPEAT 2 {
    X_ERROR(1) 0
    Z_ERROR(0) 0
    Y_ERROR(0) 3
    CNOT 0 1
    MR(0) !1
    CX rec[-1] 4
    REPEAT 3 {
        MPP(1) !Z0*Z1 Y3
    }
    SHIFT_COORDS(0, -1)
    DETECTOR(5, 0) rec[-1] rec[-2]
}
MX 2
MY(1) 3
MRX 2
MRY 3
E(1) X0 z1
M 0 1 4
OBSERVABLE_INCLUDE(1) rec[-3]
";

/// A random outcome, fed back to the qubit of the detector.
const RANDOM: &str = "H 0\nCX 0 1\nM 1\nCX rec[-1] 2\nM 2\nDETECTOR rec[-1]\n";

/// Two records, of which the first is 1 where the fault happens. Each is fed back three times to the qubit that all detectors
/// measure, so all of them are flipped three times.
const FED_BACK: &str = "\
X_ERROR(0.1) 0
M 0 1
REPEAT 3 {
    CX rec[-2] 2
    CX rec[-1] 2
}
M 2
REPEAT 16 {
    DETECTOR rec[-1]
}
";

/// A hundred detectors of one record, whose letter 4,000 gates go over: too many letters for it to be found out that no detector is
/// random. One turn of an outer block, so that turns of the inner one aren't gone over at once.
const LONG: &str = "\
REPEAT 1 {
    REPEAT 4000 {
        H 0
    }
    X_ERROR(1) 0
    M 0
    REPEAT 100 {
        DETECTOR rec[-1]
    }
}
";

/// An error model with blocks and shifts: ten error lines, four detectors and two observables.
const MODEL: &str = "\
error(0.1) D0 L0
repeat 3 {
    error(0.2) D0 ^ D1
    shift_detectors(1) 1
    detector(5) D0
    repeat 2 {
        error(0.5) L0
    }
}
logical_observable L1
";

/// An order on a text, what is written so many times over, and how that ends.
pub(super) struct Row {
    pub order: Order<'static>,
    pub text: &'static str,
    pub output: &'static str,
    pub times: u64,
    pub status: Status,
}

impl Row {
    /// How many bytes are written.
    pub fn length(&self) -> u64 {
        self.times.saturating_mul(self.output.len() as u64)
    }

    /// Whether these bytes are a beginning of what is written.
    pub fn begins_with(&self, bytes: &[u8]) -> bool {
        let mut left = bytes;
        for _ in 0..self.times {
            match left.strip_prefix(self.output.as_bytes()) {
                Some(rest) => left = rest,
                None => return self.output.as_bytes().starts_with(left),
            }
        }
        left.is_empty()
    }

    /// Whether these bytes are what is written.
    pub fn is_written_as(&self, bytes: &[u8]) -> bool {
        bytes.len() as u64 == self.length() && self.begins_with(bytes)
    }
}

/// Coins for the 25 collapses of `EVERYTHING`. Two are random, and both are corrected.
const ONES: &[u8] = b"1111111111111111111111111";

/// Shots go out in more pieces than one.
const ROWS: &[Row] = &[
    Row {
        order: Order::Run {
            coins: Some(ONES),
            faults: b"",
        },
        text: EVERYTHING,
        output: "110101011010100000000\n0000\n",
        times: 1,
        status: Status::Done,
    },
    // The first fault stays: it flips both turns' records of Z and the observable.
    Row {
        order: Order::Run {
            coins: None,
            faults: b"0",
        },
        text: EVERYTHING,
        output: "000000000000000000100\n0001\n",
        times: 1,
        status: Status::Done,
    },
    Row {
        order: Order::Run {
            coins: None,
            faults: b"23",
        },
        text: EVERYTHING,
        output: "refused 51 line 0\n",
        times: 1,
        status: Status::Refused,
    },
    // Feedback of so many targets at once takes the record's set out of the lists.
    Row {
        order: Order::Analyze,
        text: FED_BACK,
        output: "\
error(0.1) D0 D1 D2 D3 D4 D5 D6 D7 D8 D9 D10 D11 D12 D13 D14 D15
detector D0
detector D1
detector D2
detector D3
detector D4
detector D5
detector D6
detector D7
detector D8
detector D9
detector D10
detector D11
detector D12
detector D13
detector D14
detector D15
",
        times: 1,
        status: Status::Done,
    },
    Row {
        order: Order::Analyze,
        text: EVERYTHING,
        output: "\
error(0.01) L1
error(1e-3) L1
error(0.125) D0
error(0.125) D0
error(0.01) L1
error(1e-3) L1
error(0.125) D1
error(0.125) D1
detector(5, -1) D0
detector(5, -2) D1
logical_observable L0
logical_observable L1
",
        times: 1,
        status: Status::Done,
    },
    Row {
        order: Order::Analyze,
        text: RANDOM,
        output: "random D0\n00\n11\n",
        times: 1,
        status: Status::Random,
    },
    // A line with a number of 2^16 or more is kept apart from the others.
    Row {
        order: Order::Analyze,
        text: "M 0\nREPEAT 2 {\n    DETECTOR rec[-1] rec[-65536]\n}\n",
        output: "refused 22 line 3\n",
        times: 1,
        status: Status::Refused,
    },
    Row {
        order: Order::Analyze,
        text: "M 0\n\nREPEAT 2 {\n    FOO\n}\n",
        output: "refused 11 line 4\n",
        times: 1,
        status: Status::Refused,
    },
    Row {
        order: Order::Faults,
        text: EVERYTHING,
        output: "\
0 0.01 X0
1 0.5 Z0
2 0.02 Y3
3 1e-3 X0*Z1
4 .25 rec[0]
5 0.125 rec[1]
6 0.125 rec[2]
7 0.125 rec[3]
8 0.125 rec[4]
9 0.125 rec[5]
10 0.125 rec[6]
11 0.01 X0
12 0.5 Z0
13 0.02 Y3
14 1e-3 X0*Z1
15 .25 rec[7]
16 0.125 rec[8]
17 0.125 rec[9]
18 0.125 rec[10]
19 0.125 rec[11]
20 0.125 rec[12]
21 0.125 rec[13]
22 0 rec[15]
coins 25
",
        times: 1,
        status: Status::Done,
    },
    Row {
        order: Order::Predict { lines: b"0,1" },
        text: MODEL,
        output: "010010\n",
        times: 1,
        status: Status::Done,
    },
    Row {
        order: Order::Predict { lines: b"10" },
        text: MODEL,
        output: "refused 51 line 0\n",
        times: 1,
        status: Status::Refused,
    },
    Row {
        order: Order::Predict { lines: b"" },
        text: "repeat 2 {\n    foo\n}\n",
        output: "refused 40 line 2\n",
        times: 1,
        status: Status::Refused,
    },
    Row {
        order: Order::Sample {
            shots: 800,
            seed: 5,
        },
        text: CERTAIN,
        output: "011111110101010100101\n",
        times: 800,
        status: Status::Done,
    },
    Row {
        order: Order::Sample {
            shots: 1_000_001,
            seed: 5,
        },
        text: CERTAIN,
        output: "refused 52 line 0\n",
        times: 1,
        status: Status::Refused,
    },
    Row {
        order: Order::Detect {
            shots: 3_500,
            seed: 6,
        },
        text: CERTAIN,
        output: "1001\n",
        times: 3_500,
        status: Status::Done,
    },
    // Beside a reference run.
    Row {
        order: Order::Detect { shots: 11, seed: 6 },
        text: LONG,
        output: "\
1111111111111111111111111111111111111111111111111111111111111111111111111111111111111111111111111111
",
        times: 11,
        status: Status::Done,
    },
    Row {
        order: Order::Detect { shots: 1, seed: 6 },
        text: "M 0\n\nREPEAT 2 {\n    H 0 0 X0\n}\n",
        output: "refused 15 line 4\n",
        times: 1,
        status: Status::Refused,
    },
];

/// The rows. Who asks for them needs nothing of what they are.
pub(super) fn rows() -> &'static [Row] {
    ROWS
}
