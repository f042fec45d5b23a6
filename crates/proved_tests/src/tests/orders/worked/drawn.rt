//! Shots that are sampled, beside runs with the faults and coins that are drawn for one shot after another.
use circuit_walk::Program;
use engine::{Order, exit_status, serve};
use forward_sim::{Records, draw, run};
use rand_core::SeedableRng;
use rand_pcg::Pcg64;
use std::alloc::Global;
use step_model::{Fault, MemorySink, MemorySource};
use unroll::read_program;

/// Faults, random outcomes, and feedback of records that are flipped and inverted.
const CIRCUIT: &[u8] = b"\
RX 2
X_ERROR(0.25) 0
H 0
CX 0 1
M(0.5) 0
CX rec[-1] 1
REPEAT 2 {
    E(0.375) Z0 Y1
    MPP(0.125) X0*!X1
    CZ rec[-1] 2
    MRX(0.25) !2
    CY rec[-2] 1
    H 1 2
}
MY 0
M 0 1 2
";

/// Two batches of 64, and two shots more.
const SHOTS: u64 = 130;

/// Whether a line is the records' and ends.
fn is_line(records: &Records<Global>, line: &[u8]) -> bool {
    for place in 0..records.len() {
        let digit = if records.get(place) { b'1' } else { b'0' };
        if line.get(place).copied() != Some(digit) {
            return false;
        }
    }
    line.get(records.len()).copied() == Some(b'\n')
}

/// Whether a line is that of the run with these faults and coins.
fn is_run(
    alloc: Global,
    program: &Program<'_, Global>,
    (faults, coins): (&[bool], &[bool]),
    line: &[u8],
) -> Result<bool, Fault> {
    let records = run(alloc, program, faults, coins)?;
    Ok(is_line(&records, line))
}

/// Whether a line is that of the shot that is drawn next.
fn is_next_shot(
    alloc: Global,
    program: &Program<'_, Global>,
    rng: &mut Pcg64,
    line: &[u8],
) -> Result<bool, Fault> {
    let (faults, coins) = draw(alloc, program, rng)?;
    is_run(alloc, program, (faults.as_slice(), coins.as_slice()), line)
}

/// How many of the lines are those of the shots that are drawn one after another; none where one isn't.
fn drawn_lines(
    alloc: Global,
    program: &Program<'_, Global>,
    rng: &mut Pcg64,
    bytes: &[u8],
) -> Result<Option<u64>, Fault> {
    let mut lines = 0u64;
    for line in bytes.chunks(program.record_count() as usize + 1) {
        if !is_next_shot(alloc, program, rng, line)? {
            return Ok(None);
        }
        lines = lines.saturating_add(1);
    }
    Ok(Some(lines))
}

/// Whether what was sampled by a seed is so many lines, those of the shots that the seed draws.
fn are_drawn(alloc: Global, seed: u64, bytes: &[u8]) -> Result<bool, Fault> {
    let program = read_program(alloc, CIRCUIT)?;
    let mut rng = Pcg64::seed_from_u64(seed);
    let lines = drawn_lines(alloc, &program, &mut rng, bytes)?;
    Ok(lines == Some(SHOTS))
}

fn samples_as_drawn(alloc: Global, seed: u64) -> Result<bool, Fault> {
    let mut sink = MemorySink::new(alloc);
    let mut source = MemorySource::new(CIRCUIT);
    let order = Order::Sample { shots: SHOTS, seed };
    let end = serve(alloc, &order, &mut source, &mut sink);
    if exit_status(end) != 0 {
        return Ok(false);
    }
    are_drawn(alloc, seed, sink.bytes())
}

#[test]
fn shots_one_after_another(rt: HostRuntime) {
    for seed in [0, 5] {
        assert!(rt;
            matches!(samples_as_drawn(rt.alloc(), seed), Ok(true)),
            "seed {seed}"
        );
    }
}
