//! One shot, drawn by the next words of a generator.
ghost use Rattle.std.specs.Prelude.{◌≡◌, ◌+◌, length, IfOk, IfErr, OnOk, OnErr};
ghost use Rattle.step_model.specs.Faults.{memory_fault};
ghost use Rattle.forward_sim.specs.Drawn.{after_words, bounds_of, drawn_coins, drawn_faults};

use circuit_walk::{FaultTaker, FoundFault, Program, take_faults};
use rand_core::utils::NextWord;
use rand_pcg::Pcg64;
use std::alloc::{AllocError, Allocator};
use step_model::Fault;

/// Draws a shot of a program by the generator's next words: first, by one word each, whether each fault happens, and then
/// the coin of each collapse. Takes all memory before the first word. A collapse is the projective measurement inside a
/// measurement or a reset; its coin is the outcome where that is random.
pub fn draw<A: Allocator + Copy>(
    alloc: A,
    program: &Program<'_, A>,
    rng: &mut Pcg64,
) -> Result<(Vec<bool, A>, Vec<bool, A>), Fault>
    ensures faults { IfOk result (λ drawn. drawn.0.items
        ≡ drawn_faults (bounds_of program.now.listing) rng.old) }
    ensures coins { IfOk result (λ drawn. drawn.1.items
        ≡ drawn_coins program.now.listing.collapses
        (after_words (length program.now.listing.faults) rng.old)) }
    ensures taken { OnOk result
        (rng.new
        ≡ after_words (length program.now.listing.faults + program.now.listing.collapses)
        rng.old) }
    ensures err { IfErr result (λ fault. fault ≡ memory_fault) }
    ensures stays { OnErr result (rng.new ≡ rng.old) }
{
    let bounds = fault_bounds(alloc, program)?;
    let mut faults = vec![in alloc; false; bounds.len()]?;
    let mut coins = vec![in alloc; false; program.collapse_count() as usize]?;
    draw_faults(&mut faults, bounds.as_slice(), rng);
    draw_coins(&mut coins, rng);
    Ok((faults, coins))
}

// The bounds of faults, one after another.
#[derive(Drop)]
struct BoundList<A: Allocator + Copy> {
    bounds: Vec<u128, A>,
}

impl<A: Allocator + Copy> FaultTaker<A> for BoundList<A> {
    ghost use Rattle.std.specs.Prelude.{vec_capacity};
    ghost use Rattle.forward_sim.specs.private.BoundTakers.{AreListed};

    ghost stands = { λ program begun n list. AreListed program.listing n (vec_capacity list.bounds) list.bounds.items };

    #[inline(always)]
    fn take(&mut self, program: &Program<'_, A>, fault: FoundFault<'_>) {
        self.bounds
            .push_reserved(program.chance_bound(fault.chance));
    }
}

// The bound of each fault.
fn fault_bounds<A: Allocator + Copy>(
    alloc: A,
    program: &Program<'_, A>,
) -> Result<Vec<u128, A>, AllocError>
    ensures { IfOk result (λ bounds. bounds.items ≡ bounds_of program.now.listing) }
{
    let bounds = Vec::with_capacity(alloc, program.fault_count() as usize)?;
    let mut list = BoundList { bounds };
    take_faults(program, &mut list);
    let BoundList { bounds } = list;
    Ok(bounds)
}

// A fault happens where its word is below its bound.
fn draw_faults(faults: &mut [bool], bounds: &[u128], rng: &mut Pcg64)
    requires { length faults.old ≡ length bounds.now }
    ensures faults { faults.new ≡ drawn_faults bounds.now rng.old }
    ensures taken { rng.new ≡ after_words (length bounds.now) rng.old }
{
    for f in 0..bounds.len() {
        let word = u128::from(rng.next_word());
        faults[f] = word < bounds[f];
    }
}

// A coin is its word's lowest bit.
fn draw_coins(coins: &mut [bool], rng: &mut Pcg64)
    ensures coins { coins.new ≡ drawn_coins (length coins.old) rng.old }
    ensures taken { rng.new ≡ after_words (length coins.old) rng.old }
{
    for c in 0..coins.len() {
        coins[c] = rng.next_word() % 2 == 1;
    }
}
