//! Circuits, each with its answer behind ` = `. `|` ends a line of a text. The answer is the text of the error model; or the lowest
//! random target, observables counted behind the detectors, and its place.

pub(super) const ROWS: &str = "\
H 0 | CX 0 1 | R 0 | M 1 | DETECTOR rec[-1] = random 0 start 0
MX 0 | M 0 | DETECTOR rec[-1] = random 0 after 0
H 0 1 | M 0 1 | DETECTOR rec[-1] | DETECTOR rec[-2] | OBSERVABLE_INCLUDE(0) rec[-1] = random 0 start 1
M 0 | H 0 | M 0 | H 0 | M 0 | DETECTOR rec[-1] = random 0 after 1
H 0 | M 0 | OBSERVABLE_INCLUDE(1) rec[-1] = random 1 start 0
MPP X0*X1 | M 0 | DETECTOR rec[-1] = random 0 after 0
H 0 | M 0 | CX rec[-1] 1 | M 1 | DETECTOR rec[-1] = random 0 start 0
X_ERROR(0.25) 0 | M 0 | DETECTOR rec[-1] | H 0 | M 0 | DETECTOR rec[-1] = random 1 after 0
H 0 | CX 0 1 1 2 | Z_ERROR(0.25) 1 | MX 0 1 2 | DETECTOR rec[-1] rec[-2] rec[-3] = error(0.25) D0|detector D0|
H 0 | CX 0 1 1 2 | X_ERROR(0.25) 1 | M 0 1 2 | DETECTOR rec[-1] rec[-2] | DETECTOR rec[-2] rec[-3] = error(0.25) D0 \
D1|detector D0|detector D1|
X_ERROR(0.25) 0 | MR(0.5) 0 | M 0 | DETECTOR rec[-2] | DETECTOR rec[-1] = error(0.25) D0|error(0.5) D0|detector \
D0|detector D1|
M(1) !0 | DETECTOR rec[-1] rec[-1] | DETECTOR rec[-1] = error(1) D1|detector D0|detector D1|
X_ERROR(0.25) 0 | X_ERROR(0.5) 1 | CX 0 1 | M 0 1 | DETECTOR rec[-2] | DETECTOR rec[-1] | DETECTOR rec[-1] rec[-2] = \
error(0.25) D0 D1|error(0.5) D1 D2|detector D0|detector D1|detector D2|
C_XYZ 0 | X_ERROR(0.25) 0 | Z_ERROR(0.5) 0 | C_ZYX 0 | M 0 | DETECTOR rec[-1] = error(0.5) D0|detector D0|
X_ERROR(0.25) 0 | X_ERROR(0.5) 1 | MPP Z0*Z1 Z0 | DETECTOR rec[-2] | DETECTOR rec[-1] = error(0.25) D0 D1|error(0.5) \
D0|detector D0|detector D1|
H 0 | M(0.25) 0 | CX rec[-1] 0 | M 0 | DETECTOR rec[-1] = error(0.25) D0|detector D0|
X_ERROR(0.25) 0 | M 0 | CX rec[-1] 1 | M 1 | DETECTOR rec[-1] = error(0.25) D0|detector D0|
# A qubit in +1 of Y is teleported to qubit 2: Z and X turn it, and Y doesn't. | H 0 | S 0 | Z_ERROR(0.25) 0 | \
Y_ERROR(0.5) 0 | X_ERROR(1) 0 | H 1 | CX 1 2 0 1 | H 0 | M 0 1 | CX rec[-1] 2 | CZ rec[-2] 2 | MY 2 | DETECTOR rec[-1] \
= error(0.25) D0|error(1) D0|detector D0|
R 0 1 | REPEAT 2 { | X_ERROR(0.25) 0 | CX 0 1 | MR 1 | DETECTOR(0, 0) rec[-1] | SHIFT_COORDS(0, 1) | } | M 0 | \
OBSERVABLE_INCLUDE(0) rec[-1] = error(0.25) D0 D1 L0|error(0.25) D1 L0|detector(0, 0) D0|detector(0, 1) \
D1|logical_observable L0|
X_ERROR(0.25) 0 | REPEAT 6 { | M 0 | DETECTOR rec[-1] | } = error(0.25) D0 D1 D2 D3 D4 D5|detector D0|detector \
D1|detector D2|detector D3|detector D4|detector D5|
# Faults in the inner turns alone flip something. | REPEAT 3 { | REPEAT 4 { | X_ERROR(0.25) 0 | MR 0 | DETECTOR \
rec[-1] | } | Z_ERROR(0.5) 0 | } = error(0.25) D0|error(0.25) D1|error(0.25) D2|error(0.25) D3|error(0.25) \
D4|error(0.25) D5|error(0.25) D6|error(0.25) D7|error(0.25) D8|error(0.25) D9|error(0.25) D10|error(0.25) D11|detector \
D0|detector D1|detector D2|detector D3|detector D4|detector D5|detector D6|detector D7|detector D8|detector \
D9|detector D10|detector D11|
# A fault stays until the end. | REPEAT 5 { | X_ERROR(0.25) 0 | CX 0 1 | MR 1 | DETECTOR rec[-1] | } | M 0 | \
OBSERVABLE_INCLUDE(0) rec[-1] = error(0.25) D0 D1 D2 D3 D4 L0|error(0.25) D1 D2 D3 D4 L0|error(0.25) D2 D3 D4 \
L0|error(0.25) D3 D4 L0|error(0.25) D4 L0|detector D0|detector D1|detector D2|detector D3|detector \
D4|logical_observable L0|
# A turn's flip is fed back in the next, and then taken back. | M(0.25) 0 | REPEAT 3 { | CX rec[-1] 1 | M(0.5) 1 | \
DETECTOR rec[-1] | } = error(0.25) D0|error(0.5) D0 D1|error(0.5) D1 D2|error(0.5) D2|detector D0|detector D1|detector \
D2|
# A product is compared with that of the turn before. | MPP(0.5) X0*X1 | REPEAT 3 { | Z_ERROR(0.25) 1 | MPP(0.5) X0*X1 \
| DETECTOR rec[-1] rec[-2] | } = error(0.5) D0|error(0.25) D0|error(0.5) D0 D1|error(0.25) D1|error(0.5) D1 \
D2|error(0.25) D2|error(0.5) D2|detector D0|detector D1|detector D2|
# No line comes of what is behind. | X_ERROR(0.25) 0 1 | M 0 1 | DETECTOR rec[-1] | DETECTOR rec[-2] | REPEAT 2 { | \
X_ERROR(0.5) 0 | } = error(0.25) D1|error(0.25) D0|detector D0|detector D1|
";
