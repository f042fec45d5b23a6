//! What the program's help says: of the program, and of each subcommand what goes in, what comes out, an example, and how it
//! ends. Help isn't wrapped, so its lines are cut here.

/// What the program's help says after its subcommands.
pub(crate) const ABOUT_ENDS: &str =
    "Every command reads standard input and writes standard output: predict reads a detector error
model, the others read a circuit. docs/FORMATS.md says what may stand in a circuit and in a model,
and docs/FROM_STIM.md what to write in place of the parts of Stim that are left out.

Example:
  stabsim analyze < examples/repetition_code.stim > code.dem

Exit status:
   0  Done.
   1  Failed: memory ran out, the input couldn't be read, or the output couldn't be written.
      What was written may be incomplete.
   2  Refused: the only line written is 'refused N line L', or 'usage' where the command line is
      wrong. It goes to standard output: look at the status before you use a file.
   3  Random: analyze found a detector or observable that is random without any fault.

Refusals of a circuit, by N. L is the line of the text, or 0 for all of it:
  10  Byte               Outside tags and comments, keep to tabs, spaces and printable ASCII.
  11  Name               Write an instruction that docs/FORMATS.md lists.
  12  LeftOut            docs/FROM_STIM.md says what can stand in place of this instruction.
  13  Arguments          Close the tag and the parentheses, and give the arguments that the
                         instruction takes; for points in coordinates see docs/FROM_STIM.md.
  14  Probability        Write a decimal from 0 to 1 of at most 18 digits, the last at most 38
                         places after the point; for longer ones see docs/FROM_STIM.md.
  15  Target             Write targets of the form that the instruction takes.
  16  Count              Name targets in pairs where the instruction takes pairs, one number after
                         REPEAT, and no target after TICK and SHIFT_COORDS.
  17  SameQubit          Name a qubit only once in a pair or in a product.
  18  Block              End a REPEAT line with {, and close its block by a line with } alone.
  19  RepeatZero         Repeat a block at least once.
  20  Number             Use qubits up to 4095, coordinates up to 1000000000, other numbers of at
                         most 18 digits.
  21  Depth              Put at most 32 blocks into one another.
  22  RecordBeforeStart  Use rec[-k] only where there are k records before it.
  23  Steps              Keep to 64000000 steps, with blocks unrolled.
  24  Records            Keep to 8000000 records and to as many coins ('stabsim run --help').
  25  Detectors          Keep to 1000000 detectors, and number observables up to 1023.

Refusals of an error model:
  10  Byte               As above.
  40  DemName            Write error, detector, logical_observable, shift_detectors or repeat.
  41  DemArguments       Close the tag and the parentheses, and give the arguments that the line
                         takes; for long probabilities and points see docs/FROM_STIM.md.
  42  DemTarget          Write targets of the form that the line takes: D5, L0, ^ or a number.
  43  DemBlock           End a repeat line with {, and close its block by a line with } alone.
  44  DemNumber          Use detectors up to 999999, with all shifts, observables up to 1023, other
                         numbers of at most 18 digits.
  45  DemRepeatZero      Repeat a block at least once.
  46  DemDepth           Put at most 32 blocks into one another.
  47  DemSteps           Keep to 4000000 lines, with blocks unrolled.

Refusals of an option:
  50  CoinCount          Give one digit for each coin: 'stabsim faults' ends with their number.
  51  FaultNumber        Name faults, or error lines, that are there, each once, joined by commas.
  52  Shots              Draw at most 1000000 shots at once; for more, use another seed.";

pub(crate) const ABOUT_RUNS: &str =
    "Each measured or reset qubit, and each measured product of Pauli letters, is a collapse, and has a
coin: a digit that is the outcome where that is random, and changes nothing where it isn't.

Input: a circuit.
Output: two lines. The first has one digit for each record. The second has one digit for each
detector and then one for each observable: 1 where its parity differs from the one that it has
without faults and with all coins 0.

Example:
  stabsim run --faults 6,16 < examples/repetition_code.stim

Exit status: 0 done; 1 memory ran out, or the input or output failed; 2 refused.
'stabsim --help' lists the refusals, and docs/FORMATS.md describes the formats.";

pub(crate) const ABOUT_ANALYSES: &str = "Input: a circuit.
Output: its detector error model, in Stim's format. It has a line for each fault that flips a
detector or observable, with the fault's probability and all that it flips, and then a line for
each detector and each observable. Faults that flip the same have a line each: nothing is merged.

A detector or observable is random where its parity without faults isn't always the same. The
output is then its name, as 'random D3' or 'random L0', and two lines of coins, each as in
'stabsim run --coins', for which the parities differ.

Example:
  stabsim analyze < examples/repetition_code.stim > code.dem

Exit status: 0 done; 1 memory ran out, or the input or output failed; 2 refused; 3 random.
'stabsim --help' lists the refusals, and docs/FORMATS.md describes the formats.";

pub(crate) const ABOUT_SAMPLES: &str =
    "In each shot every fault happens with its probability, and a random outcome is 0 or 1 with equal
probability. A seed gives the same shots on every machine.

Input: a circuit.
Output: a line for each shot, with one digit for each record.

Example:
  stabsim sample --shots 10 --seed 7 < examples/repetition_code.stim

Exit status: 0 done; 1 memory ran out, or the input or output failed; 2 refused.
'stabsim --help' lists the refusals, and docs/FORMATS.md describes the formats.";

pub(crate) const ABOUT_DETECTIONS: &str =
    "The shots are those that 'stabsim sample' draws with the same seed. Use 'stabsim analyze' first:
the detection events of a detector that is random without any fault say nothing about faults.

Input: a circuit.
Output: a line for each shot, with one digit for each detector and then one for each observable:
1 where its parity differs from the one that it has without faults and with all coins 0. This is
Stim's format 01 with the observables appended.

Example:
  stabsim detect --shots 10 --seed 7 < examples/repetition_code.stim

Exit status: 0 done; 1 memory ran out, or the input or output failed; 2 refused.
'stabsim --help' lists the refusals, and docs/FORMATS.md describes the formats.";

pub(crate) const ABOUT_FAULTS: &str = "Input: a circuit.
Output: a line for each fault with its number, its probability and what it does: the Pauli letters
that it puts on qubits, as Z0*Z1, or the record that it flips, as rec[0]. The last line is
'coins N', where N is the number of coins that 'stabsim run --coins' takes.

Example:
  stabsim faults < examples/repetition_code.stim

Exit status: 0 done; 1 memory ran out, or the input or output failed; 2 refused.
'stabsim --help' lists the refusals, and docs/FORMATS.md describes the formats.";

pub(crate) const ABOUT_PREDICTIONS: &str = "Input: a detector error model.
Output: a line with one digit for each detector and then one for each observable: 1 where an odd
number of the named error lines flip it. Error lines are numbered from 0, in the order of the
model with its blocks unrolled. No other line has a number.

Example:
  stabsim predict --lines 6,16 < examples/repetition_code.dem

Exit status: 0 done; 1 memory ran out, or the input or output failed; 2 refused.
'stabsim --help' lists the refusals, and docs/FORMATS.md describes the formats.";
