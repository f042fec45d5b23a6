ghost use Rattle.std.specs.Prelude.{◌≡◌, ◌≤◌, length, replicate, IfOk, IfErr};
ghost use Rattle.step_model.specs.Faults.{memory_fault};
ghost use Rattle.forward_sim.specs.Drawn.{bounds_of, after_shots};
ghost use Rattle.forward_sim.specs.Shots.{AreDrawn};

use crate::fault_bounds::FaultBounds;
use crate::side_draws::draw_lanes;
use crate::span::Span;
use circuit_walk::Program;
use rand_pcg::Pcg64;
use std::alloc::Allocator;
use std::marker::Model;
use step_model::Fault;

/// Up to 64 shots of a program, side by side: a word for each fault, whose bit j says whether it happens in shot j, and
/// one for each collapse, with its coins. Each call of `draw` draws them anew, in the memory that `new` took.
#[derive(Drop)]
pub struct Shots<A: Allocator + Copy> {
    bounds: FaultBounds<A>,
    passed: Span,
    faults: Vec<u64, A>,
    coins: Vec<u64, A>,
    // 64, for the shots that are drawn at once
    generators: Vec<Pcg64, A>,
}

impl<A: Allocator + Copy> Model for Shots<A> {
    ghost use Rattle.std.specs.Prelude.{◌≡◌, length};
    ghost use Rattle.forward_sim.specs.private.LaneDraws.{HasRoom};
    ghost use Rattle.forward_sim.specs.Shots.{ShotWords};

    ghost Value = { ShotWords };

    ghost view = { λ s. record { bounds = s.bounds; passed = s.passed; faults = s.faults.items; coins = s.coins.items } };

    ghost invariant = { λ s. HasRoom s.passed s.bounds s.faults.items s.coins.items × (length s.generators.items ≡ 64) };
}

impl<A: Allocator + Copy> Shots<A> {
    /// Shots in which no fault happens and all coins are 0. The coins of a span won't be tossed: they stay 0, which is faster where
    /// they don't count. All memory is taken here.
    pub fn new(alloc: A, program: &Program<'_, A>, passed: Span) -> Result<Self, Fault>
        requires order { passed.start ≤ passed.end }
        requires within { passed.end ≤ program.now.listing.collapses }
        ensures bounds { IfOk result (λ shots. shots.bounds ≡ bounds_of program.now.listing) }
        ensures passed { IfOk result (λ shots. shots.passed ≡ passed) }
        ensures faults { IfOk result (λ shots. shots.faults
            ≡ replicate (length program.now.listing.faults) 0) }
        ensures coins { IfOk result (λ shots. shots.coins
            ≡ replicate program.now.listing.collapses 0) }
        ensures err { IfErr result (λ fault. fault ≡ memory_fault) }
    {
        let bounds = FaultBounds::new(alloc, program)?;
        let faults = vec![in alloc; 0u64; program.fault_count() as usize]?;
        let coins = vec![in alloc; 0u64; program.collapse_count() as usize]?;
        let generators = vec![in alloc; Pcg64::from_state(0, 0); 64]?;
        Ok(Shots {
            bounds,
            passed,
            faults,
            coins,
            generators,
        })
    }

    /// Draws the next `count` shots by the generator's next words: for each shot one word for each fault, and then one
    /// for each collapse, which is passed over where its coin isn't tossed. Takes no memory.
    pub fn draw(&mut self, count: u32, rng: &mut Pcg64)
        requires { count ≤ 64 }
        ensures bounds { self.new.bounds ≡ self.old.bounds }
        ensures drawn { AreDrawn self.old.passed self.old.bounds (length self.old.coins) count
            rng.old self.new.faults self.new.coins }
        ensures passed { self.new.passed ≡ self.old.passed }
        ensures taken { rng.new
            ≡ after_shots (length self.old.bounds) (length self.old.coins) count rng.old }
    {
        draw_lanes(
            &mut self.faults,
            &mut self.coins,
            self.passed,
            &self.bounds,
            &mut self.generators,
            count,
            rng,
        );
    }

    /// For each fault a word, whose bit j says whether it happens in shot j.
    pub fn faults(&self) -> &[u64]
        ensures { result.now ≡ self.now.faults }
    {
        self.faults.as_slice()
    }

    /// For each collapse a word, whose bit j is its coin in shot j.
    pub fn coins(&self) -> &[u64]
        ensures { result.now ≡ self.now.coins }
    {
        self.coins.as_slice()
    }
}
