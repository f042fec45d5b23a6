//! What holds of every target (detector or observable) without a place, in every well-formed program. Each function
//! does nothing: its contract is the law, proved. A collapse is the projective measurement inside a measurement or a
//! reset; its coin is the outcome where that is random.
ghost use Rattle.std.specs.Prelude.{◌≡◌, ◌<◌, ℕ, None, length};
ghost use Rattle.step_model.specs.ErrorModels.{Fits, IsExact};
ghost use Rattle.step_model.specs.HitModels.{hitting_faults, model_of};
ghost use Rattle.run_laws.specs.Constants.{IsConstant, ParityIsWhatStepsBring, SensitivityStays};
ghost use Rattle.run_laws.specs.Duality.{AddsUp, OneFaultLaw};
ghost use Rattle.run_laws.specs.UniqueModels.{OneModelLaw};
ghost use Rattle.step_model.specs.Listing.{Listing};
ghost use Rattle.step_model.specs.Sensitivities.{place_of};
ghost use Rattle.step_model.specs.Targets.{targets_of};
ghost use Rattle.step_model.specs.WellFormed.{IsWellFormed};

/// Along every run, whatever faults happen and whatever the coins are, the sensitivity of a target without a place is in
/// the state after each step. Its sign is the exclusive or of the records so far that the sensitivity lists there and of
/// what the steps so far bring: the signs of their gates' preimages and of the products with collapsed words, the
/// inversions of listed records, and the faults that happen.
pub fn sensitivities_stay()
    ensures { SensitivityStays }
{}

/// A target without a place has the same parity in any two runs with the same faults, whatever the coins. That parity is
/// what the steps bring, as in `sensitivities_stay`. A target has no place where its sensitivity just after each collapse
/// commutes with the collapse's word, and has no X or Y at the start.
pub fn parity_is_constant()
    ensures constant { (program : Listing) (d : ℕ)
        → IsWellFormed program
        → place_of program d ≡ None
        → IsConstant program d }
    ensures brought { (program : Listing) (d : ℕ)
        → IsWellFormed program
        → place_of program d ≡ None
        → ParityIsWhatStepsBring program d }
{}

/// Such a target differs between a run with faults and one without, under any coins, exactly where an odd number
/// of the faults that happen hit it: one fault flips the targets that it hits and no others, and a set of
/// faults flips their exclusive sum.
pub fn faults_add_up()
    ensures { (program : Listing) (d : ℕ)
        → IsWellFormed program
        → place_of program d ≡ None
        → AddsUp program d }
{}

/// So one fault more or less changes such a target exactly where that fault hits it: two runs, under any coins, whose
/// sets of faults differ in one fault alone differ in the target exactly where the fault's word anticommutes with the
/// sensitivity after it, or where it flips a record that the sensitivity there lists an odd number of times.
pub fn one_fault_flips_what_it_hits()
    ensures { OneFaultLaw }
{}

/// The error model with one line for each fault that hits a target, with the targets that it hits, fits the program.
/// Where no target has a place it is exact: for every set of faults and any two coin lists, the targets that differ
/// between the run with these faults under the first and the run without faults under the second are the exclusive
/// sum of the targets of those faults.
pub fn hits_make_exact_model()
    ensures fits { (program : Listing) → Fits program (hitting_faults program) (model_of program) }
    ensures exact { (program : Listing)
        → IsWellFormed program
        → ((d : ℕ) → d < length (targets_of program) → place_of program d ≡ None)
        → IsExact program (hitting_faults program) (model_of program) }
{}

/// No other model does: two models that fit a program and are exact are equal, and their lines stand for the same faults.
pub fn at_most_one_model_is_exact()
    ensures { OneModelLaw }
{}
