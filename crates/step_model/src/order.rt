/// What is asked of a text. It is a circuit's; for `Predict` alone it is an error model's. At most 1,000,000 shots may
/// be asked for; more are refused.
#[derive(Clone, Copy)]
pub enum Order<'o> {
    /// The records and the detections of one run. The coins are one digit for each collapse, all 0 where none are
    /// given; the faults that happen are a list of numbers. A collapse is the projective measurement inside a
    /// measurement or a reset; its coin is the outcome where that is random.
    Run {
        coins: Option<&'o [u8]>,
        faults: &'o [u8],
    },
    /// The error model: for each fault that flips a detector or an observable, which ones. Where a detector or
    /// observable is random, the lowest one instead, with two coin lists that show it.
    Analyze,
    /// The list of the faults, and how many coins a run takes.
    Faults,
    /// The symptom of some error lines: the detectors and observables that they flip together. The lines are given as a
    /// list of numbers. Error lines are numbered from 0 in the order in which they are reached, each turn of a block
    /// anew; other lines have no number.
    Predict {
        lines: &'o [u8],
    },
    /// The records of drawn shots, a line each. In each shot the faults that happen and the coins are drawn by the
    /// generator that the seed gives.
    Sample {
        shots: u64,
        seed: u64,
    },
    /// The detections of the same shots.
    Detect {
        shots: u64,
        seed: u64,
    },
}
