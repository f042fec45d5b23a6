ghost use Rattle.std.specs.Prelude.{◌≡◌, ◌≤◌, ◌∷◌, ℕ, List, option_map};
ghost use Rattle.circuit_walk.specs.Named.{IsStepOf};
ghost use Rattle.circuit_walk.specs.Steps.{listed};
ghost use Rattle.step_model.specs.Frames.{zero_coins};
ghost use Rattle.step_model.specs.Listing.{ListedStep};
ghost use Rattle.step_model.specs.Runs.{RunState, start};
ghost use Rattle.forward_sim.specs.References.{AreDecided, AreWordsOf, GoneOver, IsNext, IsSaid, StandBefore, said_of, terms_in};
ghost use Rattle.forward_sim.specs.private.Said.{words_of};

use crate::kept_words::KeptWords;
use crate::replaced_word::{ReplacedWord, word_listed};
use crate::span::Span;
use crate::walking::WalkingRun;
use circuit_walk::{Program, Step};
use std::alloc::Allocator;

/// What says which words the collapses of a reference run replaced.
#[derive(Drop)]
pub(crate) enum ReplacedWords<A: Allocator + Copy> {
    /// A list, which is short enough to be kept.
    Kept(KeptWords<A>),
    /// A run that goes along with each batch.
    Walked(WalkingRun<A>),
}

impl<A: Allocator + Copy> ReplacedWords<A> {
    /// Goes back before the first step of the program.
    pub(crate) fn restart(&mut self, program: &Program<'_, A>)
        requires { AreWordsOf program.now.listing (words_of self.old) }
        ensures stand { StandBefore program.now.listing program.now.listing.steps
            (start (zero_coins program.now.listing)) 0 (words_of self.new) }
        ensures words { AreWordsOf program.now.listing (words_of self.new) }
    {
        program.well_formed();
        match self {
            ReplacedWords::Kept(_) => {}
            ReplacedWords::Walked(walk) => walk.restart(),
        }
    }

    /// Goes over the next step of the program.
    #[inline(always)]
    pub(crate) fn go_over(&mut self, program: &Program<'_, A>, step: &Step<'_>)
        requires of_program { IsStepOf program.now step.now }
        requires next { IsNext program.now.listing
            (listed program.now.listing.qubits step.now) (words_of self.old) }
        ensures over { (rest : List ListedStep)
            → (m : RunState)
            → (k : ℕ)
            → StandBefore program.now.listing
            (listed program.now.listing.qubits step.now ∷ rest) m k (words_of self.old)
            → GoneOver program.now.listing
            (listed program.now.listing.qubits step.now) rest m k (words_of self.new) }
        ensures words { AreWordsOf program.now.listing (words_of self.old)
            → AreWordsOf program.now.listing (words_of self.new) }
    {
        match self {
            ReplacedWords::Kept(_) => {}
            ReplacedWords::Walked(walk) => walk.go_over(program, *step),
        }
    }

    /// Collapses that replace no word: the longest span of them in a list, and else none.
    pub(crate) fn longest_decided(&self, program: &Program<'_, A>) -> Span
        requires { AreWordsOf program.now.listing (words_of self.now) }
        ensures order { result.start ≤ result.end }
        ensures within { result.end ≤ program.now.listing.collapses }
        ensures decided { AreDecided result (words_of self.now) }
    {
        program.well_formed();
        match self {
            ReplacedWords::Kept(kept) => kept.longest_decided(),
            ReplacedWords::Walked(_) => Span { start: 0, end: 0 },
        }
    }

    /// The word that a collapse replaced, which is the last that was gone over.
    #[inline(always)]
    pub(crate) fn get(&self, collapse: usize) -> Option<ReplacedWord<'_>>
        requires { IsSaid collapse (words_of self.now) }
        ensures { option_map terms_in result ≡ said_of collapse (words_of self.now) }
    {
        match self {
            ReplacedWords::Kept(kept) => kept.get(collapse),
            ReplacedWords::Walked(walk) => word_listed(walk.list()),
        }
    }
}
