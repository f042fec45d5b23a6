//! The rows: the words of a command line, the text, what is written, and the exit status, with ` = ` between them. Orders
//! with `, ` between them write the same.
//!
//! `|` ends a line of a text. A line that begins with `#` is no row.

/// Blocks, one inside another too.
pub(super) const BLOCKS: &str = "\
run = REPEAT 2000000 {|TICK|}| = || = 0
run = REPEAT 2000001 {|TICK|}| = || = 0
run --faults 0,1 = R 0 1|REPEAT 2 {|X_ERROR(0.01) 0|CX 0 1|MR 1|DETECTOR(0, 0) rec[-1]|SHIFT_COORDS(0, 1)|}|M 0|\
    OBSERVABLE_INCLUDE(0) rec[-1]| = 100|100| = 0
run = REPEAT 2 {|REPEAT 2 {|X 0|M 0|}|X 0|}| = 1001|| = 0
run = REPEAT 32000000 {|TICK|}| = || = 0
analyze = R 0 1|REPEAT 2 {|X_ERROR(0.01) 0|CX 0 1|MR 1|DETECTOR(0, 0) rec[-1]|SHIFT_COORDS(0, 1)|}|M 0|\
    OBSERVABLE_INCLUDE(0) rec[-1]| \
    = error(0.01) D0 D1 L0|error(0.01) D1 L0|detector(0, 0) D0|detector(0, 1) D1|logical_observable L0| = 0
analyze = REPEAT 2000000 {|TICK|}| =  = 0
analyze = X_ERROR(0.1) 0|REPEAT 6 {|M 0|DETECTOR rec[-1]|}| \
    = error(0.1) D0 D1 D2 D3 D4 D5|detector D0|detector D1|detector D2|detector D3|detector D4|detector D5| = 0
analyze = REPEAT 2 {|REPEAT 2 {|X_ERROR(0.1) 0|MR 0|DETECTOR rec[-1]|}|}| \
    = error(0.1) D0|error(0.1) D1|error(0.1) D2|error(0.1) D3|detector D0|detector D1|detector D2|detector D3| = 0
analyze = REPEAT 2 {|DETECTOR(1, 5)|REPEAT 3 {|DETECTOR(0)|SHIFT_COORDS(10)|}|SHIFT_COORDS(0, -1)|DETECTOR(7, 7, 7)|\
    }|DETECTOR(2)| = detector(1, 5) D0|detector(0) D1|detector(10) D2|detector(20) D3|detector(37, 6, 7) D4|\
    detector(31, 4) D5|detector(30) D6|detector(40) D7|detector(50) D8|detector(67, 5, 7) D9|detector(62) D10| = 0";

/// Gates, measurements, resets, detectors and observables, without faults.
pub(super) const COLLAPSES: &str = "\
run = H 0|S 0 0|H 0|M 0|DETECTOR rec[-1]| = 1|0| = 0
run = OBSERVABLE_INCLUDE(2)| = |000| = 0
run = H 0|CX 0 1|MY 0 1|DETECTOR rec[-1] rec[-2]| = 01|0| = 0
run --coins 10 = H 0|CX 0 1|MY 0 1|DETECTOR rec[-1] rec[-2]| = 10|0| = 0
run --coins 1 = h[x#y] 0 # note|m 0| = 1|| = 0
run = X 0|SWAP 0 1|M 0 1|R 1|M 1| = 010|| = 0
run = H 0| = || = 0
run = X 0|M 0|DETECTOR rec[-1]| = 1|0| = 0
run --coins 10 = H 0|CX 0 1|M 0 1| = 11|| = 0
run --coins 01 = H 0|CX 0 1|M 0 1| = 00|| = 0
run --coins 10 = H 0|CX 0 1|R 0|M 1| = 1|| = 0
run --coins 10 = MRX 0|MX 0| = 10|| = 0
run --coins 100 = MY 0|RY 0|MY 0| = 10|| = 0
run = X 0|MR !0|M 0| = 00|| = 0
run = QUBIT_COORDS(1.5) 0| = || = 0
run = R = || = 0
analyze =  =  = 0
analyze = H 0|M 0 0|DETECTOR rec[-1] rec[-2]| = detector D0| = 0
analyze = H 0|S 0 0|H 0|M 0|DETECTOR rec[-1]| = detector D0| = 0
analyze = OBSERVABLE_INCLUDE(2)| = logical_observable L0|logical_observable L1|logical_observable L2| = 0
analyze = H 0|CX 0 1|MY 0 1|DETECTOR rec[-1] rec[-2]| = detector D0| = 0
analyze = X 0|M 0|DETECTOR rec[-1]| = detector D0| = 0
analyze = DETECTOR(-0, -3)| = detector(0, -3) D0| = 0
analyze = H 0|M 0|DETECTOR rec[-1]| = random D0|0|1| = 3
analyze = H 0|CX 0 1|R 0|M 1|DETECTOR rec[-1]| = random D0|00|11| = 3
analyze = MX 0|M 0|DETECTOR rec[-1]| = random D0|00|01| = 3
analyze = H 0 1|M 0 1|DETECTOR rec[-1]|DETECTOR rec[-2]|OBSERVABLE_INCLUDE(0) rec[-1]| = random D0|00|01| = 3
analyze = M 0|H 0|M 0|H 0|M 0|DETECTOR rec[-1]| = random D0|000|001| = 3
analyze = RX 0|M 0|DETECTOR rec[-1]| = random D0|00|01| = 3
analyze = H 0|M 0|OBSERVABLE_INCLUDE(1) rec[-1]| = random L1|0|1| = 3";

/// Faults: letters at qubits, products of letters, and flips of records.
pub(super) const FAULTS: &str = "\
run = M(1e0) !0|DETECTOR rec[-1]| = 1|0| = 0
run --faults 0 = M(1e0) !0|DETECTOR rec[-1]| = 0|1| = 0
run = X_ERROR(1e-38) 0| = || = 0
run = X_ERROR(1.000) 0| = || = 0
run = X_ERROR(0e999) 0| = || = 0
run --faults 0 = X_ERROR(0.1) 0|CX 0 1|M 0 1| = 11|| = 0
run = X_ERROR(0.1) 0|CX 0 1|M 0 1| = 00|| = 0
run --faults 0,1 = X_ERROR(0.1) 0|X_ERROR(0.2) 1|CX 0 1|M 0 1|DETECTOR rec[-2]|DETECTOR rec[-1]|\
    DETECTOR rec[-1] rec[-2]| = 10|101| = 0
run = X_ERROR(10e-1) 0| = || = 0
analyze = X_ERROR(0.1) 0|M 0|DETECTOR rec[-1]| = error(0.1) D0|detector D0| = 0
analyze = X_ERROR(0.1) 0|R 0|M 0|DETECTOR rec[-1]| = detector D0| = 0
analyze = E(0.1) X0 X1|M 0 1|DETECTOR rec[-1] rec[-2]| = detector D0| = 0
analyze = E(0.1) X0 X1|M 0 1|DETECTOR rec[-1]| = error(0.1) D0|detector D0| = 0
analyze = H 0|Y_ERROR(0.5) 0|H 0|M 0|DETECTOR rec[-1]| = error(0.5) D0|detector D0| = 0
analyze = H 0|X_ERROR(0.5) 0|H 0|M 0|DETECTOR rec[-1]| = detector D0| = 0
analyze = M(1e0) !0|DETECTOR rec[-1] rec[-1]| = detector D0| = 0
analyze = M(1e0) !0|DETECTOR rec[-1]| = error(1e0) D0|detector D0| = 0
analyze = C_XYZ 0|X_ERROR(0.1) 0|C_ZYX 0|M 0|DETECTOR rec[-1]| = detector D0| = 0
analyze = C_XYZ 0|Z_ERROR(0.1) 0|C_ZYX 0|M 0|DETECTOR rec[-1]| = error(0.1) D0|detector D0| = 0
analyze = X_ERROR(0.1) 0|X_ERROR(0.2) 1|CX 0 1|M 0 1|DETECTOR rec[-2]|DETECTOR rec[-1]|DETECTOR rec[-1] rec[-2]| \
    = error(0.1) D0 D1|error(0.2) D1 D2|detector D0|detector D1|detector D2| = 0
analyze = X_ERROR(0.25) 0|M 0|DETECTOR rec[-1] rec[-1]|DETECTOR rec[-1]| = error(0.25) D1|detector D0|detector D1| = 0
analyze = X_ERROR(0.1) 0|MR(0.2) 0|M 0|DETECTOR rec[-2]|DETECTOR rec[-1]| \
    = error(0.1) D0|error(0.2) D0|detector D0|detector D1| = 0
analyze = X_ERROR(0.1) 0|ISWAP 0 1|M 0 1|DETECTOR rec[-2]|DETECTOR rec[-1]| \
    = error(0.1) D1|detector D0|detector D1| = 0";

/// Letters that are applied where a record is 1.
pub(super) const FEEDBACK: &str = "\
run --coins 10 = H 0|M(0.1) 0|CX rec[-1] 0|M 0|DETECTOR rec[-1]| = 10|0| = 0
run --faults 0 = H 0|M(0.1) 0|CX rec[-1] 0|M 0|DETECTOR rec[-1]| = 11|1| = 0
run = M !0|CX rec[-1] 1|M 1| = 11|| = 0
analyze = H 0|M(0.1) 0|CX rec[-1] 0|M 0|DETECTOR rec[-1]| = error(0.1) D0|detector D0| = 0
analyze = X_ERROR(0.1) 0|M 0|CX rec[-1] 1|M 1|DETECTOR rec[-1]| = error(0.1) D0|detector D0| = 0
analyze = X_ERROR(0.1) 0|H 1|CX 1 2 0 1|H 0|M 0 1|CX rec[-1] 2|CZ rec[-2] 2|M 2|DETECTOR rec[-1]| \
    = error(0.1) D0|detector D0| = 0
analyze = H 0|M 0|CX rec[-1] 1|M 1|DETECTOR rec[-1]| = random D0|00|11| = 3";

/// Measurements of products of letters.
pub(super) const PRODUCTS: &str = "\
run --coins 10 = MPP X0*X1|MPP X0*X1|DETECTOR rec[-1] rec[-2]| = 11|0| = 0
run = H 0|CX 0 1|MPP Y0*Y1 !Y0*Y1| = 10|| = 0
run = MPP X0*X1 Z0*Z1 Y0*Y1|DETECTOR rec[-1] rec[-2] rec[-3]| = 001|0| = 0
run --coins 100 = MPP X0*X1 Z0*Z1 Y0*Y1|DETECTOR rec[-1] rec[-2] rec[-3]| = 100|0| = 0
run = MPP !X0*!X1| = 0|| = 0
run = MPP X0*X1| = 0|| = 0
analyze = MPP X0*X1|MPP X0*X1|DETECTOR rec[-1] rec[-2]| = detector D0| = 0
analyze = MPP X0*X1 Z0*Z1 Y0*Y1|DETECTOR rec[-1] rec[-2] rec[-3]| = detector D0| = 0
analyze = X_ERROR(0.2) 0 1|MPP Z0*Z1 Z0|DETECTOR rec[-2]|DETECTOR rec[-1]| \
    = error(0.2) D0 D1|error(0.2) D0|detector D0|detector D1| = 0
analyze = MPP(0.1) Z0*Z1|DETECTOR rec[-1]| = error(0.1) D0|detector D0| = 0
analyze = MPP X0*X1|M 0|DETECTOR rec[-1]| = random D0|00|01| = 3";

/// Lists of faults.
pub(super) const LISTS: &str = "\
faults =  = coins 0| = 0
faults = R 0 1|REPEAT 2 {|X_ERROR(0.01) 0|CX 0 1|MR 1|DETECTOR(0, 0) rec[-1]|SHIFT_COORDS(0, 1)|}|M 0|\
    OBSERVABLE_INCLUDE(0) rec[-1]| = 0 0.01 X0|1 0.01 X0|coins 5| = 0
faults = M(1e0) !0|DETECTOR rec[-1]| = 0 1e0 rec[0]|coins 1| = 0
faults = X_ERROR(1e-38) 0| = 0 1e-38 X0|coins 0| = 0
faults = X_ERROR(1.000) 0| = 0 1.000 X0|coins 0| = 0
faults = X_ERROR(0e999) 0| = 0 0e999 X0|coins 0| = 0
# X and Y at one qubit are Z, and X twice is none.
faults = E(0.2) X1 Z0 Y1|E(0.2) X0 X0|M(0.3) 0| = 0 0.2 Z0*Z1|1 0.2 I|2 0.3 rec[0]|coins 1| = 0
# Z of a qubit that is 0 is a fault too, and so is a letter behind the last measurement.
faults = Z_ERROR(.5) 2 0|MX 0|Y_ERROR( 1E-3 ) 1 = 0 .5 Z2|1 .5 Z0|2 1E-3 Y1|coins 1| = 0
# A product has one flip and one record; a reset has a coin and no record.
faults = MPP(0.1) X0*X1 !Z0*Z1|MR(0.2) 0|R 1 2| = 0 0.1 rec[0]|1 0.1 rec[1]|2 0.2 rec[2]|coins 5| = 0
faults = E(0.1)| = 0 0.1 I|coins 0| = 0
# Qubits ascend as numbers.
faults = E(0.1) X10 Y9 Z100| = 0 0.1 Y9*X10*Z100|coins 0| = 0
faults = REPEAT 2 {|REPEAT 2 {|M(0.5) 0|}|}| = 0 0.5 rec[0]|1 0.5 rec[1]|2 0.5 rec[2]|3 0.5 rec[3]|coins 4| = 0";

/// What error lines of a model flip, by their numbers.
pub(super) const PREDICTIONS: &str = "\
predict =  = | = 0
predict --lines 0,1 = error(0.01) D0 D1 L0|error(0.01) D1 L0|detector(0, 0) D0|detector(0, 1) D1|\
    logical_observable L0| = 100| = 0
predict --lines 1,0 = error(0.01) D0 D1 L0|error(0.01) D1 L0|detector(0, 0) D0|detector(0, 1) D1|\
    logical_observable L0| = 100| = 0
predict --lines 0 = error(0.1) D0 ^ D0 D1 L0| = 011| = 0
predict --lines 0,1 = error(0.1) D0 D2|error(0.2) L1 ^ D2| = 10001| = 0
predict = error(0.1) D0 D2|error(0.2) L1 ^ D2| = 00000| = 0
predict --lines 0 = detector(1, -2) D5|error(0) D1| = 010000| = 0
predict = shift_detectors 1| = | = 0
predict --lines 0,1 = repeat 3 {|error(0.1) D0 D1|shift_detectors 1|}| = 1010| = 0
predict --lines 0,2 = repeat 3 {|error(0.1) D0 D1|shift_detectors 1|}| = 1111| = 0
predict --lines 0 = shift_detectors(0, 5) 2|detector(1, 1) D0|error(0.1) D0 L0| = 0011| = 0
predict = repeat 2000000 {|logical_observable L0|}| = 0| = 0
# Only error lines have numbers, and zeros in front change nothing.
predict --lines 0 = error(0.1) D0|detector(1) D1|logical_observable L0|shift_detectors 1|error(0.2) D0 L0| = 100| = 0
predict --lines 001 = error(0.1) D0|detector(1) D1|logical_observable L0|shift_detectors 1|error(0.2) D0 L0| \
    = 011| = 0
predict --lines 1,0 = error(0.1) D0|detector(1) D1|logical_observable L0|shift_detectors 1|error(0.2) D0 L0| \
    = 111| = 0
# A line that flips nothing, and one whose targets cancel, have numbers too.
predict --lines 0 = error(0.1)| = | = 0
predict --lines 0,1,2 = error(0.1)|error(1) L0 L0|error(0) L0 = 1| = 0
# The greatest of each counts, wherever it stands and whether it cancels.
predict --lines 0 = logical_observable L2|error(0.1) D1| = 01000| = 0
predict --lines 0 = error(0.1) D1 D1 D0| = 10| = 0
# Names in any case, tags, comments and blanks.
predict --lines 0 = # a model||  ERROR[x](0.1)\tD0   ^ L1 # none\r|Detector D1 = 1001| = 0
predict --lines 0 = error( 1e-38 ) L0 = 1| = 0
predict --lines 1,2 = repeat 2 {|repeat 2 {|error(0.5) D0|shift_detectors 1|}|shift_detectors 1|}| = 01010| = 0
predict --lines 0 = error(2) D0| = refused 41 line 1| = 2
predict --lines 0 = error(0.1) X0| = refused 42 line 1| = 2
predict --lines 0 = detector D1000000| = refused 44 line 1| = 2
predict --lines 2 = error(0.1) D0 D2|error(0.2) L1 ^ D2| = refused 51 line 0| = 2
predict = repeat 2 {| = refused 43 line 1| = 2
predict = repeat 0 {|}| = refused 45 line 1| = 2
predict = shift_detectors 999999|error(0.1) D1| = refused 44 line 2| = 2
predict = repeat 2000001 {|logical_observable L0|}| = refused 47 line 0| = 2
# Lists that are none, or that name a line that isn't there or one twice.
predict --lines 0 =  = refused 51 line 0| = 2
predict --lines 0,0 = error(0.1) D0 D2|error(0.2) L1 ^ D2| = refused 51 line 0| = 2
predict --lines 0,00 = error(0.1) D0 D2|error(0.2) L1 ^ D2| = refused 51 line 0| = 2
predict --lines , = error(0.1) D0 D2|error(0.2) L1 ^ D2| = refused 51 line 0| = 2
predict --lines 0, = error(0.1) D0 D2|error(0.2) L1 ^ D2| = refused 51 line 0| = 2
predict --lines  0 = error(0.1) D0 D2|error(0.2) L1 ^ D2| = refused 51 line 0| = 2
predict --lines +0 = error(0.1) D0 D2|error(0.2) L1 ^ D2| = refused 51 line 0| = 2
predict --lines -1 = error(0.1) D0 D2|error(0.2) L1 ^ D2| = refused 51 line 0| = 2
predict --lines D0 = error(0.1) D0 D2|error(0.2) L1 ^ D2| = refused 51 line 0| = 2
predict --lines 18446744073709551616 = error(0.1) D0 D2|error(0.2) L1 ^ D2| = refused 51 line 0| = 2
predict --lines 3 = repeat 3 {|error(0.1) D0 D1|shift_detectors 1|}| = refused 51 line 0| = 2
predict --lines 2 = error(0.1) D0|detector(1) D1|logical_observable L0|shift_detectors 1|error(0.2) D0 L0| \
    = refused 51 line 0| = 2
# The text comes first.
predict --lines x = error(0.1) D0|foo| = refused 40 line 2| = 2
predict --lines 7 = repeat 4000001 {|}| = refused 47 line 0| = 2
predict --lines 0,0 = error D0| = refused 41 line 1| = 2
predict --lines 1 = shift_detectors 1000000|error(0.1) D0| = refused 44 line 2| = 2
# The causes meet on one line.
predict = \x01 error(0.1) X0 {| = refused 10 line 1| = 2
predict = foo {| = refused 43 line 1| = 2
predict = M 0| = refused 40 line 1| = 2
predict = error(2) X0| = refused 41 line 1| = 2
predict = error(0.1) D1000000 0| = refused 42 line 1| = 2
predict = shift_detectors 1 2| = refused 42 line 1| = 2
# What an analysis writes of a random target is no model.
predict = random D0|0|1| = refused 40 line 1| = 2";

/// Refused texts, by the number of the refusal; then beginnings of a text.
pub(super) const REFUSALS: &str = "\
run, analyze, faults = FOO 0| = refused 11 line 1| = 2
run, analyze, faults = FOO(0.1| = refused 11 line 1| = 2
run, analyze, faults = DEPOLARIZE1(0.1) 0| = refused 12 line 1| = 2
run, analyze, faults = H(0.1) 0| = refused 13 line 1| = 2
run, analyze, faults = X_ERROR 0| = refused 13 line 1| = 2
run, analyze, faults = DETECTOR(1.5)| = refused 13 line 1| = 2
run, analyze, faults = DETECTOR(1, 1, 1, 1, 1, 1, 1, 1, 1, 1, 1, 1, 1, 1, 1, 1, 1)| = refused 13 line 1| = 2
run, analyze, faults = SHIFT_COORDS(1, 1, 1, 1, 1, 1, 1, 1, 1, 1, 1, 1, 1, 1, 1, 1, 1)| = refused 13 line 1| = 2
run, analyze, faults = QUBIT_COORDS(1, 1, 1, 1, 1, 1, 1, 1, 1, 1, 1, 1, 1, 1, 1, 1, 1)| = refused 13 line 1| = 2
run, analyze, faults = X_ERROR(1.0000001) 0| = refused 14 line 1| = 2
run, analyze, faults = X_ERROR(1e-39) 0| = refused 14 line 1| = 2
run, analyze, faults = X_ERROR(-0.1) 0| = refused 14 line 1| = 2
run, analyze, faults = X_ERROR(0.1234567890123456789) 0| = refused 14 line 1| = 2
run, analyze, faults = M X0| = refused 15 line 1| = 2
run, analyze, faults = DETECTOR rec[-0]| = refused 15 line 1| = 2
run, analyze, faults = R !0| = refused 15 line 1| = 2
run, analyze, faults = E(0.1) !X0| = refused 15 line 1| = 2
run, analyze, faults = MPP X0*| = refused 15 line 1| = 2
run, analyze, faults = MPP X0*4| = refused 15 line 1| = 2
run, analyze, faults = CX 0 rec[-1]| = refused 15 line 1| = 2
run, analyze, faults = CX 0| = refused 16 line 1| = 2
run, analyze, faults = REPEAT 2 3 {| = refused 16 line 1| = 2
run, analyze, faults = TICK 0| = refused 16 line 1| = 2
run, analyze, faults = CX rec[-1]| = refused 16 line 1| = 2
run, analyze, faults = CX 0 0| = refused 17 line 1| = 2
run, analyze, faults = MPP X0*X0| = refused 17 line 1| = 2
run, analyze, faults = REPEAT 2 {|H 0| = refused 18 line 1| = 2
run, analyze, faults = REPEAT 2 {|H 0 = refused 18 line 1| = 2
run, analyze, faults = }| = refused 18 line 1| = 2
run, analyze, faults = M 0 }| = refused 18 line 1| = 2
run, analyze, faults = REPEAT 2| = refused 18 line 1| = 2
run, analyze, faults = REPEAT 0 {| = refused 19 line 1| = 2
run, analyze, faults = H 4096| = refused 20 line 1| = 2
run, analyze, faults = CX 0 4096 1| = refused 20 line 1| = 2
run, analyze, faults = REPEAT 1000000000000000000 {| = refused 20 line 1| = 2
run, analyze, faults = DETECTOR(1000000001)| = refused 20 line 1| = 2
run, analyze, faults = MPP X0*Z4096| = refused 20 line 1| = 2
run, analyze, faults = M 0|DETECTOR rec[-2]| = refused 22 line 2| = 2
run, analyze, faults = DETECTOR rec[-999999999999999999]| = refused 22 line 1| = 2
run, analyze, faults = CX rec[-1] 0| = refused 22 line 1| = 2
run, analyze, faults = REPEAT 999999999999999999 {|}| = refused 23 line 0| = 2
run, analyze, faults = REPEAT 32000001 {|TICK|}| = refused 23 line 0| = 2
run, analyze, faults = REPEAT 1000000000000 {|M 0|}| = refused 24 line 0| = 2
run, analyze, faults = REPEAT 9000000 {|M 0|}|DETECTOR rec[-8500000]| = refused 24 line 0| = 2
run, analyze, faults = REPEAT 8000001 {|M 0|}| = refused 24 line 0| = 2
run, analyze, faults = OBSERVABLE_INCLUDE(1024)| = refused 25 line 1| = 2
run, analyze, faults = R 0 1|REPEA = refused 11 line 2| = 2
run, analyze, faults = R 0 1|REPEAT 2 = refused 18 line 2| = 2
run, analyze, faults = R 0 1|REPEAT 2 {|X_ERROR(0.0 = refused 13 line 3| = 2
run, analyze, faults = R 0 1|REPEAT 2 {|X_ERROR(0.01) 0|CX = refused 18 line 2| = 2
run, analyze, faults = R 0 1|REPEAT 2 {|X_ERROR(0.01) 0|CX 0 = refused 16 line 4| = 2
run, analyze, faults = R 0 1|REPEAT 2 {|X_ERROR(0.01) 0|CX 0 1|M = refused 18 line 2| = 2
run, analyze, faults = R 0 1|REPEAT 2 {|X_ERROR(0.01) 0|CX 0 1|MR 1|DETECTOR(0, 0) re = refused 15 line 6| = 2
run, analyze, faults = R 0 1|REPEAT 2 {|X_ERROR(0.01) 0|CX 0 1|MR 1|DETECTOR(0, 0) rec[-1]|S = refused 18 line 2| = 2
run, analyze, faults = R 0 1|REPEAT 2 {|X_ERROR(0.01) 0|CX 0 1|MR 1|DETECTOR(0, 0) rec[-1]|SHIFT_COORDS(0, 1)|}|M 0|\
    O = refused 11 line 10| = 2";

/// Drawn shots. The first words of the generator of seed 5 are, by their first and last two hexadecimal digits, 61..fc,
/// 94..ad, 44..cd, 92..c2, b8..11, 43..59, 2f..e2, 1b..58, 95..5b, b7..c4, 27..bd, 71..59, 5f..7b, 5b..d0, bd..e5,
/// 07..3f, 0e..57, aa..8a, bc..1b, f6..cc, 95..e1.
pub(super) const SHOTS: &str = "\
sample --shots 2 --seed 0 =  = || = 0
sample --shots 0 --seed 0 =  =  = 0
sample --shots 2 --seed 7 = X_ERROR(1) 0|X_ERROR(0) 1|M 0 1| = 10|10| = 0
sample --shots 8 --seed 5 = H 0|M 0| = 0|1|1|0|1|1|0|0| = 0
sample --shots 3 --seed 5 = H 0|M !0| = 1|0|0| = 0
sample --shots 4 --seed 5 = X_ERROR(0.5) 0|M 0| = 1|1|0|1| = 0
sample --shots 5 --seed 5 = H 0|X_ERROR(0.5) 1|M 0|M(0.25) 1|DETECTOR rec[-1]|OBSERVABLE_INCLUDE(0) rec[-2]| \
    = 11|00|10|11|11| = 0
sample --shots 3 --seed 5 = REPEAT 2 {|X_ERROR(0.5) 0|MR 0|}| = 10|01|00| = 0
# A reset has a coin and no record, and so has a collapse that isn't random.
sample --shots 4 --seed 5 = H 0|R 0|H 0|M 0| = 1|0|1|0| = 0
sample --shots 4 --seed 5 = M 0|H 0|M 0| = 01|00|01|00| = 0
sample --shots 4 --seed 5 = H 0|M 0|CX rec[-1] 1|M 1| = 00|11|11|00| = 0
sample --shots 5 --seed 5 = MPP X0*X1|M 0 1| = 011|011|000|011|100| = 0
# The first word is 0.3802525311366469482.. of 2 to the 64.
sample --shots 1 --seed 5 = X_ERROR(0.380252531136646948) 0|M 0| = 0| = 0
sample --shots 1 --seed 5 = X_ERROR(0.380252531136646949) 0|M 0| = 1| = 0
# The first words of seed 0 end with 53, fb, 31 and da, and those of the greatest with 71, 1a, 21 and 2e.
sample --shots 4 --seed 0 = H 0|M 0| = 1|1|1|0| = 0
sample --shots 4 --seed 18446744073709551615 = H 0|M 0| = 1|0|1|0| = 0
detect --shots 0 --seed 0 = DETECTOR| =  = 0
detect --shots 2 --seed 0 = X_ERROR(1) 0|M 0|DETECTOR rec[-1]| = 1|1| = 0
detect --shots 5 --seed 5 = H 0|X_ERROR(0.5) 1|M 0|M(0.25) 1|DETECTOR rec[-1]|OBSERVABLE_INCLUDE(0) rec[-2]| \
    = 11|00|01|11|11| = 0
# A random target differs where its coin is 1.
detect --shots 3 --seed 5 = H 0|M !0|DETECTOR rec[-1]| = 0|1|1| = 0
detect --shots 4 --seed 5 = H 0|M 0|CX rec[-1] 0|M 0|DETECTOR rec[-1]|DETECTOR rec[-2]| = 00|01|01|00| = 0
detect --shots 5 --seed 5 = MPP X0*X1|M 0 1|DETECTOR rec[-1] rec[-2]|OBSERVABLE_INCLUDE(1) rec[-1] rec[-3]| \
    = 001|001|000|001|001| = 0
sample --shots 1000001 --seed 0, detect --shots 1000001 --seed 0, sample --shots 1000001 --seed 3, \
    detect --shots 1000001 --seed 3 =  = refused 52 line 0| = 2
sample --shots 1000001 --seed 0, detect --shots 1000001 --seed 0, sample --shots 1000001 --seed 3, \
    detect --shots 1000001 --seed 3 = M 0| = refused 52 line 0| = 2
sample --shots 1000001 --seed 0, detect --shots 1000001 --seed 0, sample --shots 1000001 --seed 3, \
    detect --shots 1000001 --seed 3 \
    = R 0 1|REPEAT 2 {|X_ERROR(1) 0|CX 0 1|MR 1|DETECTOR(0, 0) rec[-1]|SHIFT_COORDS(0, 1)|}|M 0|\
    OBSERVABLE_INCLUDE(0) rec[-1]| = refused 52 line 0| = 2
sample --shots 18446744073709551615 --seed 0, detect --shots 18446744073709551615 --seed 0, \
    sample --shots 18446744073709551615 --seed 3, detect --shots 18446744073709551615 --seed 3 = H 0|M 0| \
    = refused 52 line 0| = 2
# The text comes first.
sample --shots 1000001 --seed 0, detect --shots 1000001 --seed 0, sample --shots 1000001 --seed 3, \
    detect --shots 1000001 --seed 3 = M 0|FOO 0 = refused 11 line 2| = 2
sample --shots 1000001 --seed 0, detect --shots 1000001 --seed 0, sample --shots 1000001 --seed 3, \
    detect --shots 1000001 --seed 3 = REPEAT 8000001 {|M 0|}| = refused 24 line 0| = 2
sample --shots 0 --seed 0, detect --shots 0 --seed 0, sample --shots 0 --seed 3, detect --shots 0 --seed 3 \
    = M 0|DETECTOR rec[-2]| = refused 22 line 2| = 2";
