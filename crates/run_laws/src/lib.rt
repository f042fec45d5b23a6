//! The laws of runs, over the definitions of step_model: which detectors and observables are constant, what faults change
//! in them, and how two runs that differ by a Pauli frame go on. Each function does nothing: its contract is the law,
//! proved.
#![tactic(auto)]

pub mod constancy;
pub mod shift;
