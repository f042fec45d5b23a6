ghost use Rattle.std.specs.Prelude.{◌≡◌, ◌<◌, ◌≤◌, ◌^◌, false, IfOk, OnOk, replicate};
ghost use Rattle.gate_table.specs.Images.{arity_of};
ghost use Rattle.pauli_word.specs.declared.letter.Letter.TheVariants.{I};
ghost use Rattle.trackers.specs.Tracked.{each_word, fresh, undone_one, undone_two};
ghost use Rattle.trackers.specs.private.Transposed.{ArePlaces, combined, exchanged_at, multiplied_at};

use crate::column::Column;
use crate::columns::{keep_columns, list_hit, restore_columns};
use crate::images::{images_before, is_kept, is_left, is_lost};
use crate::pairs::{exchange_pair, image_pair, multiply_pair};
use crate::sparse_set::SparseSet;
use crate::target_set::TargetSet;
use crate::tracker::Tracker;
use bit_rows::BitRow;
use flat_lists::FlatLists;
use gate_table::Gate;
use pauli_word::Letter;
use std::alloc::{AllocError, Allocator};
use std::marker::Model;
use step_model::Term;

/// Words kept by qubit: for each qubit two sets of targets, those whose word has an X in its letter there and those
/// whose word has a Z.
pub struct Words<S: TargetSet, A: Allocator + Copy> {
    targets: usize,
    columns: Vec<Column<S>, A>,
    first: Column<S>,
    second: Column<S>,
    set: S,
    spare: S,
}

/// Words kept by qubit, whose sets are rows of bits.
pub type DenseWords<A> = Words<BitRow<A>, A>;

/// Words kept by qubit, whose sets are lists of the targets in them while these are few, so that sets of few among many targets
/// take little memory.
pub type QubitSets<'a, A> = Words<SparseSet<'a, A>, A>;

impl<S: TargetSet, A: Allocator + Copy> Model for Words<S, A> {
    ghost use Rattle.trackers.specs.Tracked.{Tracked};
    ghost use Rattle.trackers.specs.private.Transposed.{tracked_of, IsTransposed};

    ghost Value = { Tracked };

    ghost view = { λ w. tracked_of w.targets w.columns.items };

    ghost invariant = { λ w. IsTransposed w.targets w.columns.items w.first w.second (S.bits w.set) (S.bits w.spare) };
}

// Written out, so that it is a call in the proof of each function that owns one.
impl<S: TargetSet, A: Allocator + Copy> Drop for Words<S, A> {
    fn drop(self) {
        let Words {
            targets: _,
            columns,
            first,
            second,
            set,
            spare,
        } = self;
        drop(columns);
        drop(first);
        drop(second);
        drop(set);
        drop(spare);
    }
}

impl<A: Allocator + Copy> Words<BitRow<A>, A> {
    /// An identity word for each of this many targets, on this many qubits. It fails only where memory runs out.
    pub fn new(alloc: A, qubits: usize, targets: usize) -> Result<Self, AllocError>
        requires { targets ≤ 2 ^ 32 }
        ensures { IfOk result (λ w. w ≡ fresh qubits targets) }
    {
        Words::of_sets(alloc, qubits, targets, BitRow::zeros(alloc, targets)?)
    }
}

impl<'a, A: Allocator + Copy> Words<SparseSet<'a, A>, A> {
    /// An identity word for each of this many targets, on this many qubits. It fails only where memory runs out.
    pub fn new(alloc: &'a A, qubits: usize, targets: usize) -> Result<Self, AllocError>
        requires { targets ≤ 2 ^ 32 }
        ensures { IfOk result (λ w. w ≡ fresh qubits targets) }
    {
        Words::of_sets(*alloc, qubits, targets, SparseSet::none(alloc, targets))
    }
}

impl<S: TargetSet, A: Allocator + Copy> Words<S, A> {
    // An identity word for each target, from an empty set.
    fn of_sets(alloc: A, qubits: usize, targets: usize, none: S) -> Result<Self, AllocError>
        requires few { targets ≤ 2 ^ 32 }
        requires none { S.bits none ≡ replicate targets false }
        ensures { IfOk result (λ w. w ≡ fresh qubits targets) }
    {
        let mut columns = Vec::with_capacity(alloc, qubits)?;
        for _made in 0..qubits {
            columns.push(Column::of_copies(&none)?)?;
        }
        let first = Column::of_copies(&none)?;
        let second = Column::of_copies(&none)?;
        let set = none.copy()?;
        Ok(Words {
            targets,
            columns,
            first,
            second,
            set,
            spare: none,
        })
    }

    // Multiplies the letters at each of two qubits by an image of those at the other.
    #[inline(always)]
    fn multiply(
        &mut self,
        a: usize,
        b: usize,
        to_first: (Letter, Letter),
        to_second: (Letter, Letter),
    ) -> Result<(), AllocError>
        requires places { ArePlaces self.old.qubits a b }
        requires x_is_lost { combined to_second.0 to_second.1 to_first.0 ≡ I }
        requires z_is_lost { combined to_second.0 to_second.1 to_first.1 ≡ I }
        ensures { OnOk result
            (self.new ≡ each_word (multiplied_at a b to_first to_second) self.old) }
    {
        let columns = self.columns.as_mut_slice();
        multiply_pair(columns, a, b, to_first, to_second, &mut self.spare)
    }

    // Puts at each of two qubits an image of the letters at the other.
    fn exchange(
        &mut self,
        a: usize,
        b: usize,
        to_first: (Letter, Letter),
        to_second: (Letter, Letter),
    ) -> Result<(), AllocError>
        requires places { ArePlaces self.old.qubits a b }
        ensures { OnOk result
            (self.new ≡ each_word (exchanged_at a b to_first to_second) self.old) }
    {
        let columns = self.columns.as_mut_slice();
        exchange_pair(
            columns,
            a,
            b,
            to_first,
            to_second,
            &mut self.first,
            &mut self.spare,
        )
    }

    // Any gate of one qubit, by the images of X and Z. It isn't inlined, so that the commonest gate is called fast.
    #[inline(never)]
    fn undo_one_by_table(&mut self, gate: Gate, q: usize) -> Result<(), AllocError>
        requires arity { arity_of gate ≡ 1 }
        requires in_range { q < self.old.qubits }
        ensures { OnOk result (self.new ≡ each_word (undone_one gate q) self.old) }
    {
        let inverse = gate.inverse();
        let (x, _) = inverse.image1(Letter::X);
        let (z, _) = inverse.image1(Letter::Z);
        self.columns[q].become_image(x, z, &mut self.first, &mut self.spare)
    }

    // Any gate of two qubits, by what its images show.
    #[inline(never)]
    fn undo_by_table(&mut self, gate: Gate, a: usize, b: usize) -> Result<(), AllocError>
        requires arity { arity_of gate ≡ 2 }
        requires places { ArePlaces self.old.qubits a b }
        ensures { OnOk result (self.new ≡ each_word (undone_two gate a b) self.old) }
    {
        let images = images_before(gate);
        let (x, z) = images.first_other;
        let kept = is_kept(images.first_own) && is_kept(images.second_own);
        if kept && is_lost(images.second_other, x) && is_lost(images.second_other, z) {
            self.multiply(a, b, images.first_other, images.second_other)
        } else if is_left(images.first_own) && is_left(images.second_own) {
            self.exchange(a, b, images.first_other, images.second_other)
        } else {
            self.undo_by_images(gate, a, b)
        }
    }

    // Any gate of two qubits, by the images of the letters at both.
    fn undo_by_images(&mut self, gate: Gate, a: usize, b: usize) -> Result<(), AllocError>
        requires arity { arity_of gate ≡ 2 }
        requires places { ArePlaces self.old.qubits a b }
        ensures { OnOk result (self.new ≡ each_word (undone_two gate a b) self.old) }
    {
        image_pair(
            self.columns.as_slice(),
            gate,
            a,
            b,
            &mut self.first,
            &mut self.second,
            &mut self.spare,
        )?;
        self.columns[a].swap(&mut self.first);
        self.columns[b].swap(&mut self.second);
        Ok(())
    }
}

impl<S: TargetSet, A: Allocator + Copy> Tracker for Words<S, A> {
    ghost tracked = { λ w. w };

    fn keep<B: Allocator + Copy>(&self, alloc: B) -> Result<FlatLists<u32, B>, AllocError> {
        keep_columns(&self.columns, alloc)
    }

    fn restore<B: Allocator + Copy>(
        &mut self,
        lists: &FlatLists<u32, B>,
    ) -> Result<(), AllocError> {
        restore_columns(self.columns.as_mut_slice(), lists)
    }

    fn undo1(&mut self, gate: Gate, q: usize) -> Result<(), AllocError> {
        match gate {
            // The commonest, which exchanges X and Z.
            Gate::H => {
                self.columns[q].exchange();
                Ok(())
            }
            _ => self.undo_one_by_table(gate, q),
        }
    }

    fn undo2(&mut self, gate: Gate, a: usize, b: usize) -> Result<(), AllocError> {
        match gate {
            // The commonest, whose images the compiler then knows.
            Gate::CX => self.multiply(a, b, (Letter::I, Letter::Z), (Letter::X, Letter::I)),
            Gate::CZ => self.multiply(a, b, (Letter::Z, Letter::I), (Letter::Z, Letter::I)),
            Gate::Swap => self.exchange(a, b, (Letter::X, Letter::Z), (Letter::X, Letter::Z)),
            _ => self.undo_by_table(gate, a, b),
        }
    }

    fn add(&mut self, targets: &[u32], letter: Letter, q: usize) -> Result<(), AllocError> {
        self.columns[q].times_each(targets, letter, &mut self.set, &mut self.spare)
    }

    fn clear(&mut self, q: usize) {
        self.columns[q].clear();
    }

    #[inline(always)]
    fn hit<B: Allocator + Copy>(
        &mut self,
        terms: &[Term],
        hit: &mut Vec<u32, B>,
    ) -> Result<(), AllocError> {
        let columns = self.columns.as_slice();
        let listed = list_hit(columns, terms, &mut self.set, &mut self.spare, hit);
        if listed.is_err() {
            hit.clear();
        }
        listed
    }

    #[inline(always)]
    fn kept_hit(&self, terms: &[Term]) -> Option<&[u32]> {
        if let [term] = terms {
            if let Some(set) = self.columns[term.qubit as usize].kept_clashing(term.letter) {
                return set.kept();
            }
        }
        None
    }

    fn letters_at(&self, q: usize) -> usize {
        self.columns[q].letter_count()
    }
}
