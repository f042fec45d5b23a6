//! Calls that no order of `serve` makes, or not in this way: each growth of theirs is refused.
use super::growths::{Memory, Ration};
use super::lent::{MODEL, are_false, identity_of};
use super::long::{lines_are_right, source_is_right};
use crate::tests::words::{dense_words, sparse_words};
use backward::{Analysed, analyse, write_in_parts};
use circuit_walk::Program;
use error_models::Model;
use forward_sim::{Records, Reference, draw};
use frames::{Batch, flips};
use rand_core::SeedableRng;
use rand_core::utils::NextWord;
use rand_pcg::Pcg64;
use std::alloc::Global;
use step_model::{Fault, MemorySink, Place};

#[derive(Clone, Copy)]
pub(super) enum Asked {
    Dense,
    Parts,
    Flips,
    Batch,
    ReferenceAlong,
    Draw,
    Model,
    Symptom,
    Lines,
    Source,
}

pub(super) const ASKED: [Asked; 10] = [
    Asked::Dense,
    Asked::Parts,
    Asked::Flips,
    Asked::Batch,
    Asked::ReferenceAlong,
    Asked::Draw,
    Asked::Model,
    Asked::Symptom,
    Asked::Lines,
    Asked::Source,
];

impl Asked {
    /// Whether the call answers as it should, and what it is lent to change is as it was where it is refused.
    pub fn is_right<'m>(
        self,
        ration: Ration<'m>,
        program: &Program<'static, Memory<'m>>,
    ) -> Result<bool, Fault> {
        match self {
            Asked::Dense => dense_is_right(ration, program),
            Asked::Parts => parts_are_right(ration, program),
            Asked::Flips => flips_are_right(ration, program),
            Asked::Batch => batch_is_right(ration.begin(), program),
            Asked::ReferenceAlong => reference_along_is_right(ration.begin(), program),
            Asked::Draw => draw_is_right(ration.begin(), program),
            Asked::Model => model_is_right(ration),
            Asked::Symptom => symptom_is_right(ration),
            Asked::Lines => lines_are_right(ration),
            Asked::Source => source_is_right(ration),
        }
    }
}

/// The model has a line for each fault that isn't the flip of the first product of a turn.
fn is_model<'m>(analysed: &Analysed<'_, Memory<'m>>) -> bool {
    match analysed {
        Analysed::Model(model) => model.line_count() == 8,
        Analysed::Random { .. } => false,
    }
}

fn dense_is_right<'m>(
    ration: Ration<'m>,
    program: &Program<'_, Memory<'m>>,
) -> Result<bool, Fault> {
    match dense_words(ration.memory, program) {
        Ok(words) => Ok(is_model(&analyse(ration.begin(), program, words)?)),
        Err(_) => Err(Fault::MEMORY),
    }
}

/// X at qubit 0 stays there, so that a turn's flips the records of qubit 1 from then on. Each of those turns qubit 4, which the
/// first turn's leave as it was.
const TEXT: &str = "\
error(0.25) D0 D1
error(0.5) D0 D1
error(1) D0 L1
error(0) D0
error(0.25) D1 L1
error(0.5) D1 L1
error(1) D1 L1
error(0) D1
detector(5, 0) D0
detector(5, 1) D1
logical_observable L0
logical_observable L1
";

/// Whether the whole text is written, or a beginning of it where the call is refused.
fn is_text(answer: Result<Option<(u32, Place)>, Fault>, bytes: &[u8]) -> Result<bool, Fault> {
    match answer {
        Ok(random) => Ok(random.is_none() && bytes == TEXT.as_bytes()),
        Err(fault) if TEXT.as_bytes().starts_with(bytes) => Err(fault),
        Err(_) => Ok(false),
    }
}

/// With no room each step that has a line is a cut.
fn parts_are_right<'m>(
    ration: Ration<'m>,
    program: &Program<'_, Memory<'m>>,
) -> Result<bool, Fault> {
    let Ok(words) = sparse_words(&ration.memory, program) else {
        return Err(Fault::MEMORY);
    };
    let mut sink = MemorySink::new(ration.alloc);
    let answer = write_in_parts(ration.begin(), program, words, 0, &mut sink);
    is_text(answer, sink.bytes())
}

/// The identity flips none of the collapses.
fn flips_are_right<'m>(
    ration: Ration<'m>,
    program: &Program<'_, Memory<'m>>,
) -> Result<bool, Fault> {
    let Ok(word) = identity_of(ration.memory, program) else {
        return Err(Fault::MEMORY);
    };
    let flips = flips(ration.begin(), program, Place::Start(0), &word)?;
    Ok(are_false(flips.as_slice(), 11))
}

/// The records of the run without faults whose coins are all 0 begin with 1001.
fn are_records<'m>(records: &Records<Memory<'m>>) -> bool {
    if records.len() != 8 {
        return false;
    }
    records.get(0) && !records.get(1) && !records.get(2) && records.get(3)
}

/// The records of the last run begin with 1001 too.
fn batch_is_right<'m>(
    memory: Memory<'m>,
    program: &Program<'_, Memory<'m>>,
) -> Result<bool, Fault> {
    let batch = Batch::run(memory, program, &[], &[])?;
    if program.record_count() != 8 {
        return Ok(false);
    }
    Ok(batch.record(63, 0) && !batch.record(63, 1) && !batch.record(63, 2) && batch.record(63, 3))
}

/// The words that the reference run's collapses replaced would take more bytes than these.
fn reference_along_is_right<'m>(
    memory: Memory<'m>,
    program: &Program<'_, Memory<'m>>,
) -> Result<bool, Fault> {
    let reference = Reference::in_room(memory, program, 60)?;
    Ok(are_records(reference.records()))
}

/// The third fault has probability 1, and the fourth 0. Where memory is wanted no word is taken.
fn draw_is_right<'m>(memory: Memory<'m>, program: &Program<'_, Memory<'m>>) -> Result<bool, Fault> {
    let mut rng = Pcg64::seed_from_u64(1);
    match draw(memory, program, &mut rng) {
        Ok((faults, coins)) => Ok(
            faults.as_slice().get(2..4) == Some([true, false].as_slice())
                && faults.len() == 10
                && coins.len() == 11,
        ),
        Err(fault) => Err(if rng.next_word() == Pcg64::seed_from_u64(1).next_word() {
            fault
        } else {
            Fault::WRITE
        }),
    }
}

/// The text of the model, its block unrolled.
const MODEL_TEXT: &str = "\
error(0.1) D0 L0
error(0.2) D1 D2
error(0.5) L1
error(0.5) L1
error(0.2) D2 D3
error(0.5) L1
error(0.5) L1
error(0.2) D3 D4
error(0.5) L1
error(0.5) L1
detector D0
detector(6) D1
detector(7) D2
detector(8) D3
detector D4
logical_observable L0
logical_observable L1
";

fn is_model_text<'m>(model: &Model<'_, Memory<'m>>, alloc: Global) -> Result<bool, Fault> {
    let mut sink = MemorySink::new(alloc);
    error_models::write(model, &mut sink)?;
    Ok(sink.bytes() == MODEL_TEXT.as_bytes())
}

fn model_is_right(ration: Ration<'_>) -> Result<bool, Fault> {
    let model = dem_text::read(ration.begin(), MODEL.as_bytes())?;
    is_model_text(&model, ration.alloc)
}

fn has_symptom<'m>(memory: Memory<'m>, model: &Model<'_, Memory<'m>>) -> Result<bool, Fault> {
    let bits = dem_text::symptom(memory, model, &[true, true])?;
    Ok(bits.as_slice() == [true, true, true, false, false, true, false].as_slice())
}

/// Of the first two lines.
fn symptom_is_right(ration: Ration<'_>) -> Result<bool, Fault> {
    let model = dem_text::read(ration.memory, MODEL.as_bytes())?;
    has_symptom(ration.begin(), &model)
}
