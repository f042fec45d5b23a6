ghost use Rattle.std.specs.Prelude.{◌≡◌, [], length, IfOk};
ghost use Rattle.circuit_walk.specs.Steps.{listed};
ghost use Rattle.step_model.specs.Runs.{next, start};
ghost use Rattle.forward_sim.specs.References.{entry_of, walking_qubits, walking_run, IsStepEntry};
ghost use Rattle.forward_sim.specs.private.Kept.{terms_listed, WalksTo};
ghost use Rattle.forward_sim.specs.private.Machines.{CanTake};
ghost use Rattle.forward_sim.specs.SameRuns.{IsSameRun};

use crate::following::read_replaced;
use crate::last_word::LastWord;
use crate::machine::Machine;
use crate::records::Records;
use crate::steps::take_step;
use circuit_walk::{Program, Step};
use std::alloc::{AllocError, Allocator};
use std::marker::Model;

/// A run in which no fault happens and all coins are 0. It goes over the steps one by one, and says of each collapse which
/// word it replaced. Only its start allocates.
pub(crate) struct WalkingRun<A: Allocator + Copy> {
    machine: Machine<'static, A>,
    // the word that the last collapse replaced
    word: LastWord<A>,
}

impl<A: Allocator + Copy> Model for WalkingRun<A> {
    ghost use Rattle.std.specs.Prelude.{◌≤◌};
    ghost use Rattle.forward_sim.specs.References.{Walking};
    ghost use Rattle.forward_sim.specs.private.Machines.{qubit_count};

    ghost Value = { Walking };

    ghost view = { λ w. record { rows = w.machine.rows; coins = w.machine.coins; records = w.machine.records; room = w.machine.room; terms = w.word.terms } };

    ghost invariant = { λ w. qubit_count w.machine ≤ w.word.room };
}

// Written out, so that it is a call in the proof of each function that owns one.
impl<A: Allocator + Copy> Drop for WalkingRun<A> {
    fn drop(self) {
        let WalkingRun { machine, word } = self;
        drop(machine);
        drop(word);
    }
}

impl<A: Allocator + Copy> WalkingRun<A> {
    /// The run before the first step.
    pub(crate) fn start(alloc: A, program: &Program<'_, A>) -> Result<Self, AllocError>
        ensures qubits { IfOk result (λ walk. walking_qubits walk ≡ program.now.listing.qubits) }
        ensures room { IfOk result (λ walk. walk.room ≡ program.now.listing.records) }
        ensures run { IfOk result (λ walk. IsSameRun program.now.listing.qubits (walking_run walk)
            (start [])) }
    {
        let qubits = program.qubits() as usize;
        let word = LastWord::new(alloc, qubits)?;
        let records = program.record_count() as usize;
        let machine = Machine::start_to_be_read(alloc, qubits, records, &[])?;
        Ok(WalkingRun { machine, word })
    }

    /// Goes back before the first step.
    pub(crate) fn restart(&mut self)
        ensures qubits { walking_qubits self.new ≡ walking_qubits self.old }
        ensures room { self.new.room ≡ self.old.room }
        ensures run { IsSameRun (walking_qubits self.old) (walking_run self.new)
            (start self.old.coins) }
    {
        self.machine.restart();
    }

    /// Goes over a step.
    pub(crate) fn go_over(&mut self, program: &Program<'_, A>, step: Step<'_>)
        requires { CanTake program.now step (walking_qubits self.old) (length self.old.records)
            self.old.room }
        ensures walked { WalksTo self.old self.new
            (next program.now.listing []
            (listed program.now.listing.qubits step.entry) (walking_run self.old)) }
        ensures entry { IsStepEntry program.now.listing.qubits (walking_run self.old).state
            (listed program.now.listing.qubits step.entry) (entry_of self.new.terms) }
    {
        read_replaced(&mut self.machine, program, &mut self.word, step);
        take_step(&mut self.machine, program, &[], step);
    }

    /// Goes over a step, and says nothing of it.
    #[inline(always)]
    pub(crate) fn go_past(&mut self, program: &Program<'_, A>, step: Step<'_>)
        requires { CanTake program.now step (walking_qubits self.old) (length self.old.records)
            self.old.room }
        ensures walked { WalksTo self.old self.new
            (next program.now.listing []
            (listed program.now.listing.qubits step.entry) (walking_run self.old)) }
    {
        take_step(&mut self.machine, program, &[], step);
    }

    /// The word that the last collapse replaced, as a list of numbers. It stands for no word where the outcome wasn't random.
    pub(crate) fn list(&self) -> &[u16]
        ensures { terms_listed result.now ≡ self.now.terms }
    {
        self.word.list()
    }

    /// Takes the records made out of it. No more can be made.
    pub(crate) fn take_records(&mut self, alloc: A) -> Records<A>
        ensures { result ≡ self.old.records }
    {
        self.machine.take_records(alloc)
    }
}
