//! Circuits that are drawn, each analysed by both trackers.
mod texts;
mod words;

use crate::tests::findings::{Finding, found_by_both};
use std::alloc::Global;
use step_model::Fault;
use texts::circuit;
use unroll::read_program;

fn finding_of(alloc: Global, text: &[u8]) -> Result<Finding, Fault> {
    let program = read_program(alloc, text)?;
    found_by_both(alloc, &program)
}

/// What both trackers find in the circuit of a seed.
fn drawn_finding(alloc: Global, seed: u64) -> Result<Finding, Fault> {
    let text = circuit(alloc, seed)?;
    finding_of(alloc, text.as_bytes())
}

/// How many of the circuits have a model, and how many a random target, by another program that was given their texts.
const MODELS: u64 = 146;

const RANDOM: u64 = 54;

#[test]
fn two_hundred_circuits(rt: HostRuntime) {
    let (mut models, mut random) = (0u64, 0u64);
    for seed in 1..=200 {
        match drawn_finding(rt.alloc(), seed) {
            Ok(Finding::Model) => models = models.saturating_add(1),
            Ok(Finding::Random) => random = random.saturating_add(1),
            _ => assert!(rt; false, "seed {seed}"),
        }
    }
    assert!(rt;
        models == MODELS && random == RANDOM,
        "{models} and {random}"
    );
}
