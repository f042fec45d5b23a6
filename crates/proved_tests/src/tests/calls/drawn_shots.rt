//! Drawn shots of small programs, against the generator's words taken outside.
ghost use Rattle.backward.specs.Places.{NoneIsRandom};

use crate::tests::tables::are_digits;
use crate::tests::words::sparse_words;
use backward::first_random;
use circuit_walk::Program;
use forward_sim::draw;
use frames::write_detections;
use rand_core::SeedableRng;
use rand_core::utils::NextWord;
use rand_pcg::Pcg64;
use std::alloc::Global;
use std::test::Fail;
use step_model::{Fault, MemorySink};
use unroll::read_program;

const CIRCUIT: &[u8] = b"\
X_ERROR(0.5) 0
X_ERROR(0) 0
X_ERROR(1) 0
M(0.25) 0
R 0
X_ERROR(0.5) 0
";

/// The faults and the coins of the first shots, by the first words of the generator of seed 5, seven a shot: the first begin with
/// the hexadecimal digits 61, 94, 44, 92, b8, 43 and 2f, and the last two end with 59 and e2.
const ROWS: &[(&str, &str)] = &[("10100", "10"), ("10111", "10"), ("00100", "01")];

/// Whether the shot that is drawn next is that of the row.
fn is_of_row(
    alloc: Global,
    program: &Program<'_, Global>,
    rng: &mut Pcg64,
    row: (&str, &str),
) -> Result<bool, Fault> {
    let (faults, coins) = draw(alloc, program, rng)?;
    Ok(are_digits(faults.as_slice(), row.0) && are_digits(coins.as_slice(), row.1))
}

/// Whether the shots that are drawn in turn are those of the rows.
fn are_of_rows(
    alloc: Global,
    program: &Program<'_, Global>,
    rng: &mut Pcg64,
) -> Result<bool, Fault> {
    let mut all = true;
    for row in ROWS {
        all &= is_of_row(alloc, program, rng, *row)?;
    }
    Ok(all)
}

/// Whether the next word is that behind three shots of seven words.
fn stands_behind_shots(rng: &mut Pcg64) -> bool {
    let mut words = Pcg64::seed_from_u64(5);
    words.advance(21);
    rng.next_word() == words.next_word()
}

fn has_shots(alloc: Global, program: &Program<'_, Global>) -> Result<bool, Fault> {
    let mut rng = Pcg64::seed_from_u64(5);
    Ok(are_of_rows(alloc, program, &mut rng)? & stands_behind_shots(&mut rng))
}

#[test]
fn shots_of_seed_five(rt: HostRuntime) -> Result<(), Fail> {
    let program = read_program(rt.alloc(), CIRCUIT)?;
    assert!(rt; has_shots(rt.alloc(), &program)?);
    Ok(())
}

const CERTAIN: &[u8] = b"X_ERROR(1) 0\nM 0 1\nDETECTOR rec[-2]\nDETECTOR rec[-1]\n";

/// Whether both shots have the detection of the fault that always happens.
fn are_detected(alloc: Global, program: &Program<'_, Global>) -> Result<bool, Fault>
    requires { NoneIsRandom program.now.listing }
{
    let mut sink = MemorySink::new(alloc);
    write_detections(alloc, program, 2, 5, &mut sink)?;
    Ok(sink.bytes() == b"10\n10\n".as_slice())
}

fn has_detections(alloc: Global, program: &Program<'_, Global>) -> Result<bool, Fault> {
    let Ok(words) = sparse_words(&alloc, program) else {
        return Err(Fault::MEMORY);
    };
    match first_random(alloc, program, words)? {
        None => are_detected(alloc, program),
        Some(_) => Ok(false),
    }
}

#[test]
fn detections_without_a_reference_run(rt: HostRuntime) -> Result<(), Fail> {
    let program = read_program(rt.alloc(), CERTAIN)?;
    assert!(rt; has_detections(rt.alloc(), &program)?);
    Ok(())
}
