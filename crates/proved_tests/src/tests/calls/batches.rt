//! A batch of runs in which two qubits are measured alike: each run's outcomes are its coin.
ghost use Rattle.std.specs.Prelude.{◌≡◌, ◌<◌, length};

use circuit_walk::Program;
use frames::Batch;
use std::alloc::Global;
use std::test::Fail;
use step_model::Fault;
use unroll::read_program;

const CIRCUIT: &[u8] = b"H 0\nCX 0 1\nM 0 1\n";

/// The first coin is 1 in the odd runs. The second outcome is decided, so its coin doesn't count.
const COINS: &[u64] = &[0xaaaa_aaaa_aaaa_aaaa, 0x0123_4567_89ab_cdef];

/// Whether the two records of a run are both 1 in an odd run and both 0 in an even one.
fn has_its_coin(batch: &Batch<Global>, shot: u32) -> bool
    requires shot { shot < 64 }
    requires records { length batch.now.reference.records ≡ 2 }
{
    let coin = shot % 2 == 1;
    (batch.record(shot, 0) == coin) & (batch.record(shot, 1) == coin)
}

fn have_their_coins(alloc: Global, program: &Program<'_, Global>) -> Result<bool, Fault> {
    let batch = Batch::run(alloc, program, &[], COINS)?;
    if program.record_count() != 2 {
        return Ok(false);
    }
    let mut all = true;
    for shot in 0..64 {
        all &= has_its_coin(&batch, shot);
    }
    Ok(all)
}

#[test]
fn runs_of_a_bell_pair(rt: HostRuntime) -> Result<(), Fail> {
    let program = read_program(rt.alloc(), CIRCUIT)?;
    assert!(rt; have_their_coins(rt.alloc(), &program)?);
    Ok(())
}
