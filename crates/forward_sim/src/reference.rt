ghost use Rattle.std.specs.Prelude.{◌≡◌, ◌≤◌, ◌∷◌, ℕ, List, length, option_map, IfOk, IfErr};
ghost use Rattle.circuit_walk.specs.Named.{IsStepOf};
ghost use Rattle.circuit_walk.specs.Steps.{listed};
ghost use Rattle.step_model.specs.Faults.{memory_fault};
ghost use Rattle.step_model.specs.Frames.{zero_coins};
ghost use Rattle.step_model.specs.Listing.{ListedStep};
ghost use Rattle.step_model.specs.Runs.{RunState, start};
ghost use Rattle.forward_sim.specs.References.{AreDecided, GoneOver, IsNext, IsReferenceOf, IsSaid, StandBefore, said_of, terms_in};

use crate::keeping::follow;
use crate::records::Records;
use crate::replaced_word::ReplacedWord;
use crate::span::Span;
use crate::words::ReplacedWords;
use circuit_walk::{Program, Step};
use std::alloc::Allocator;
use std::marker::Model;
use step_model::Fault;

// How many bytes the words may take, beside four for each record.
const MOST_BYTES: usize = 1 << 27;

/// The run of a program in which no fault happens and all coins are 0, made by a tableau: its records, and for each
/// collapse with a random outcome a word of the state that this replaced. With these, runs are sampled by Pauli frames
/// alone.
///
/// The words are kept where they take at most 128 MB, beside four bytes for each record; one that comes again soon counts
/// once. Where they take more, only the records are kept, and a tableau goes over the steps anew with each batch of runs.
pub struct Reference<A: Allocator + Copy> {
    records: Records<A>,
    words: ReplacedWords<A>,
}

impl<A: Allocator + Copy> Model for Reference<A> {
    ghost use Rattle.forward_sim.specs.References.{ReferenceRun};
    ghost use Rattle.forward_sim.specs.private.Said.{words_of};

    ghost Value = { ReferenceRun };

    ghost view = { λ reference. record { records = reference.records; words = words_of reference.words } };
}

// Written out, so that it is a call in the proof of each function that owns one.
impl<A: Allocator + Copy> Drop for Reference<A> {
    fn drop(self) {
        let Reference { records, words } = self;
        drop(records);
        drop(words);
    }
}

impl<A: Allocator + Copy> Reference<A> {
    /// The reference run of a program. It takes the time of one run, and for each random outcome time linear in the number
    /// of qubits. It stands before the first step.
    pub fn of(alloc: A, program: &Program<'_, A>) -> Result<Self, Fault>
        ensures ok { IfOk result (IsReferenceOf program.now.listing) }
        ensures records { IfOk result (λ reference. length reference.records
            ≡ program.now.listing.records) }
        ensures err { IfErr result (λ fault. fault ≡ memory_fault) }
    {
        let bytes = MOST_BYTES + 4 * program.record_count() as usize;
        Reference::in_room(alloc, program, bytes)
    }

    /// The same, where the words are kept if they take at most so many bytes.
    pub fn in_room(alloc: A, program: &Program<'_, A>, bytes: usize) -> Result<Self, Fault>
        ensures ok { IfOk result (IsReferenceOf program.now.listing) }
        ensures records { IfOk result (λ reference. length reference.records
            ≡ program.now.listing.records) }
        ensures err { IfErr result (λ fault. fault ≡ memory_fault) }
    {
        let (records, words) = follow(alloc, program, bytes)?;
        Ok(Reference { records, words })
    }

    /// The records of the run.
    pub fn records(&self) -> &Records<A>
        ensures { result.now ≡ self.now.records }
    {
        &self.records
    }

    /// Goes back before the first step of the program. Allocates nothing.
    pub fn restart(&mut self, program: &Program<'_, A>)
        requires { IsReferenceOf program.now.listing self.old }
        ensures stand { StandBefore program.now.listing program.now.listing.steps
            (start (zero_coins program.now.listing)) 0 self.new.words }
        ensures reference { IsReferenceOf program.now.listing self.new }
        ensures records { self.new.records ≡ self.old.records }
    {
        self.words.restart(program);
    }

    /// Goes over the next step of the program. Allocates nothing.
    #[inline(always)]
    pub fn go_over(&mut self, program: &Program<'_, A>, step: &Step<'_>)
        requires of_program { IsStepOf program.now step.now }
        requires next { IsNext program.now.listing
            (listed program.now.listing.qubits step.now) self.old.words }
        ensures over { (rest : List ListedStep)
            → (m : RunState)
            → (k : ℕ)
            → StandBefore program.now.listing
            (listed program.now.listing.qubits step.now ∷ rest) m k self.old.words
            → GoneOver program.now.listing
            (listed program.now.listing.qubits step.now) rest m k self.new.words }
        ensures reference { IsReferenceOf program.now.listing self.old
            → IsReferenceOf program.now.listing self.new }
        ensures records { self.new.records ≡ self.old.records }
    {
        self.words.go_over(program, step);
    }

    /// Collapses whose outcome isn't random: the longest span of them where the words are kept, and else none.
    pub fn longest_decided(&self, program: &Program<'_, A>) -> Span
        requires { IsReferenceOf program.now.listing self.now }
        ensures order { result.start ≤ result.end }
        ensures within { result.end ≤ program.now.listing.collapses }
        ensures decided { AreDecided result self.now.words }
    {
        self.words.longest_decided(program)
    }

    /// For the collapse with this number, the last that was gone over: a word that was in the state, up to its sign, and
    /// anticommutes with the word measured. None where the outcome wasn't random.
    #[inline(always)]
    pub fn replaced(&self, collapse: usize) -> Option<ReplacedWord<'_>>
        requires { IsSaid collapse self.now.words }
        ensures { option_map terms_in result ≡ said_of collapse self.now.words }
    {
        self.words.get(collapse)
    }
}
