//! What holds of the states of runs. Each function does nothing: its contract is the law, proved.
ghost use Rattle.std.specs.Prelude.{◌≡◌, ℕ, Bool, true, List};
ghost use Rattle.pauli_word.specs.Groups.{IsGroup};
ghost use Rattle.step_model.specs.Listing.{Listing, ListedStep};
ghost use Rattle.step_model.specs.Runs.{RunState, run_state_after, next};
ghost use Rattle.step_model.specs.WellFormed.{IsWellFormed, step_fits};

/// Every step of a program, resets and feedback included, keeps the words of a state a commutative group without minus
/// the identity, whatever faults happen and whatever the coins are.
pub fn steps_keep_group()
    ensures { (program : Listing) (faults : List Bool) (step : ListedStep) (m : RunState)
        → step_fits program step ≡ true
        → IsGroup program.qubits m.state
        → IsGroup program.qubits (next program faults step m).state }
{}

/// So the words of the state form such a group after any number of steps of any run of a well-formed program.
pub fn states_are_groups()
    ensures { (program : Listing) (faults coins : List Bool) (k : ℕ)
        → IsWellFormed program
        → IsGroup program.qubits (run_state_after program faults coins k).state }
{}
