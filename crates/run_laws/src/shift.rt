//! How two runs that differ by a Pauli frame go on, and that a target (detector or observable) with a place is random.
//! Each function does nothing: its contract is the law, proved. A collapse is the projective measurement inside a
//! measurement or a reset; its coin is the outcome where that is random.
ghost use Rattle.run_laws.specs.Pairs.{PairLaw, PlaceLaw, RandomLaw};
ghost use Rattle.run_laws.specs.ShiftedWords.{PlaceShift, ProductLaw, WordShift};
ghost use Rattle.run_laws.specs.Shifts.{SameFaultsLaw, ShiftLaw};

/// Take two runs, at the same step of a circuit, whose states differ by the signs that a Pauli frame gives: a word
/// changes its sign exactly where it anticommutes with the frame. Let their coins for the collapses to come differ by
/// the frame's flips, where a collapse's flip says whether the frame, carried there, anticommutes with the word
/// collapsed. Then over the steps to come each outcome differs by its flip, each record by its collapse's flip, and
/// the states by the frame carried forward, through gates, collapses and resets, random or not. The faults of the two
/// runs may differ: a Pauli fault in only one of them multiplies the frame, and a recorded flip in only one of them
/// also changes that record. With the same faults in both, the frame is carried as if there were none.
pub fn frames_shift_runs()
    ensures shift { ShiftLaw }
    ensures same_faults { SameFaultsLaw }
{}

/// A word that is in a run's state, with either sign, is a frame by which the state differs from itself. So if the coins
/// of the run are changed by the flips of the frame that begins there as that word, each outcome is changed exactly by
/// its flip. The frame may begin between any two steps, or at a place.
pub fn words_of_states_shift_runs()
    ensures between_steps { WordShift }
    ensures at_places { PlaceShift }
{}

/// Where two runs differ by a frame, they also differ by its product with any word that is in the first run's state, with
/// either sign.
pub fn frames_multiply()
    ensures { ProductLaw }
{}

/// Two coin lists give a target with a place different parities in runs without faults: all zeros, and the flips of the
/// frame that begins at the place. Each list has a coin for each collapse.
pub fn pair_disagrees()
    ensures { PairLaw }
{}

/// A target with a place is random: runs without faults don't all give it the same parity.
pub fn place_makes_random()
    ensures { PlaceLaw }
{}

/// And only such a target is: in a well-formed program a target is random exactly where it has a place.
pub fn random_exactly_with_place()
    ensures { RandomLaw }
{}
