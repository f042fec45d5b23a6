//! How two runs differ: whether each detector's parity, and then each observable's, differs between them. A pass over what a
//! program declares takes the records that each of them lists in place.
ghost use Rattle.std.specs.Prelude.{◌≡◌, ◌<◌, All, length, IfOk, IfErr};
ghost use Rattle.circuit_walk.specs.NamedRecords.{records_in};
ghost use Rattle.step_model.specs.Faults.{memory_fault};
ghost use Rattle.step_model.specs.Targets.{difference};
ghost use Rattle.forward_sim.specs.private.Answers.{differ_in};

use crate::records::Records;
use circuit_walk::{DeclarationTaker, NamedRecords, Program, take_declarations};
use std::alloc::Allocator;
use step_model::Fault;

/// For each detector, and then for each observable, whether its parity in a run differs from that in a reference run:
/// detection events, and flips of observables.
pub fn detections<A: Allocator + Copy>(
    alloc: A,
    program: &Program<'_, A>,
    records: &Records<A>,
    reference: &Records<A>,
) -> Result<Vec<bool, A>, Fault>
    requires records_fit { length records.now ≡ program.now.listing.records }
    requires reference_fit { length reference.now ≡ program.now.listing.records }
    ensures ok { IfOk result (λ answers. answers.items
        ≡ difference program.now.listing records.now reference.now) }
    ensures err { IfErr result (λ fault. fault ≡ memory_fault) }
{
    program.well_formed();
    let mut answering = Answering {
        answers: vec![in alloc; false; program.target_count()]?,
        next: 0,
        detectors: program.detector_count(),
        records,
        reference,
    };
    take_declarations(program, &mut answering);
    let Answering { answers, .. } = answering;
    Ok(answers)
}

// The answers so far: those of the detectors that were gone over, and of each observable that of the records added to it.
#[derive(Drop)]
struct Answering<'r, A: Allocator + Copy> {
    answers: Vec<bool, A>,
    // The number of the next detector.
    next: usize,
    // Observables are numbered behind all detectors.
    detectors: usize,
    records: &'r Records<A>,
    reference: &'r Records<A>,
}

impl<'r, A: Allocator + Copy> DeclarationTaker<A> for Answering<'r, A> {
    ghost use Rattle.forward_sim.specs.private.Answers.{IsAnswering};

    ghost stands = { λ program begun done answering. IsAnswering program.listing begun.records.now begun.reference.now done answering.records.now answering.reference.now answering.next answering.detectors answering.answers.items };

    #[inline(always)]
    fn detector(&mut self, program: &Program<'_, A>, records: NamedRecords<'_>) {
        program.well_formed();
        self.answers[self.next] = differs(records, self.records, self.reference);
        self.next += 1;
    }

    #[inline(always)]
    fn inclusion(
        &mut self,
        program: &Program<'_, A>,
        observable: usize,
        records: NamedRecords<'_>,
    ) {
        program.well_formed();
        let number = self.detectors + observable;
        let before = self.answers[number];
        self.answers[number] = before ^ differs(records, self.records, self.reference);
    }
}

// Whether the parities of these records differ.
#[inline(always)]
fn differs<A: Allocator + Copy>(
    named: NamedRecords<'_>,
    records: &Records<A>,
    reference: &Records<A>,
) -> bool
    requires records_fit { All (λ r. r < length records.now) (records_in named) }
    requires reference_fit { All (λ r. r < length reference.now) (records_in named) }
    ensures { result ≡ differ_in records.now reference.now (records_in named.entry) }
{
    let mut differ = false;
    let mut left = named;
    while let Some((rec, rest)) = left.split_first() {
        differ ^= records.get(rec as usize) ^ reference.get(rec as usize);
        left = rest;
    }
    differ
}
