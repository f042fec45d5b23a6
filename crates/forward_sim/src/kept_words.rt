ghost use Rattle.std.specs.Prelude.{◌≡◌, ◌<◌, ◌≤◌, ℕ, [], ◌∷◌, ◌++◌, true, false, None, length, option_map, slice_index_or, IfOk, OnOk};
ghost use Rattle.forward_sim.specs.References.{entry_of, terms_in};
ghost use Rattle.forward_sim.specs.private.Kept.{terms_listed};

use crate::replaced_word::{ReplacedWord, word_listed};
use crate::span::Span;
use crate::word_table::WordTable;
use std::alloc::{AllocError, Allocator};
use std::marker::Model;

/// For each collapse the word that it replaced, while there is room for all of them. A word that comes again soon is kept
/// once.
pub(crate) struct KeptWords<A: Allocator + Copy> {
    alloc: A,
    // as lists of numbers, of which an empty one stands for no word
    words: WordTable<A>,
    // for each collapse the number of its word
    numbers: Vec<u32, A>,
    // for how many bytes more there is room
    room: usize,
    whole: bool,
}

impl<A: Allocator + Copy> Model for KeptWords<A> {
    ghost use Rattle.std.specs.Prelude.{◌<◌, All, length, map};
    ghost use Rattle.forward_sim.specs.private.Kept.{KeptSoFar, entry_with};

    ghost Value = { KeptSoFar };

    ghost view = { λ kept. record { whole = kept.whole; replaced = map (entry_with kept.words) kept.numbers.items } };

    ghost invariant = { λ kept. All (λ number. number < length kept.words) kept.numbers.items };
}

// Written out, so that it is a call in the proof of each function that owns one.
impl<A: Allocator + Copy> Drop for KeptWords<A> {
    fn drop(self) {
        let KeptWords {
            alloc: _,
            words,
            numbers,
            room: _,
            whole: _,
        } = self;
        drop(words);
        drop(numbers);
    }
}

impl<A: Allocator + Copy> KeptWords<A> {
    /// For no collapse yet, with room for so many bytes.
    pub(crate) fn new(alloc: A, bytes: usize) -> Result<Self, AllocError>
        ensures { IfOk result (λ kept. kept.replaced ≡ []) }
    {
        Ok(KeptWords {
            alloc,
            words: WordTable::new(alloc)?,
            numbers: Vec::new(alloc),
            room: bytes,
            whole: true,
        })
    }

    /// Whether there was room for all.
    pub(crate) fn is_whole(&self) -> bool
        ensures { result ≡ self.now.whole }
    {
        self.whole
    }

    /// Keeps the list of the word that a collapse replaced, an empty one where its outcome wasn't random. Where there is no
    /// room for it, it gives back the memory of all that was kept.
    pub(crate) fn push(&mut self, list: &[u16]) -> Result<(), AllocError>
        ensures whole { OnOk result (self.new.whole ≡ true → self.old.whole ≡ true) }
        ensures kept { OnOk result
            (self.new.whole ≡ true
            → self.new.replaced ≡ self.old.replaced ++ entry_of (terms_listed list.now) ∷ []) }
    {
        let found = self.words.find(list);
        let taken = bytes_taken(found.is_some(), list.len());
        if !self.whole || taken > self.room {
            return self.give_up();
        }
        self.room -= taken;
        let number = self.words.number(found, list)?;
        self.numbers.push(number)?;
        Ok(())
    }

    // Gives back the memory of all that was kept.
    fn give_up(&mut self) -> Result<(), AllocError>
        ensures { OnOk result (self.new.whole ≡ false) }
    {
        self.whole = false;
        self.numbers = Vec::new(self.alloc);
        self.words = WordTable::new(self.alloc)?;
        Ok(())
    }

    /// The longest span of collapses that replaced no word.
    pub(crate) fn longest_decided(&self) -> Span
        ensures order { result.start ≤ result.end }
        ensures within { result.end ≤ length self.now.replaced }
        ensures none { (k : ℕ)
            → result.start ≤ k
            → k < result.end
            → slice_index_or self.now.replaced k None ≡ None }
    {
        let mut longest = Span { start: 0, end: 0 };
        let mut start = 0;
        for collapse in 0..self.numbers.len() {
            if self.get(collapse).is_some() {
                start = collapse + 1;
            } else if collapse - start >= longest.end - longest.start {
                longest = Span {
                    start,
                    end: collapse + 1,
                };
            }
        }
        longest
    }

    /// The word that a collapse replaced.
    #[inline(always)]
    pub(crate) fn get(&self, collapse: usize) -> Option<ReplacedWord<'_>>
        requires { collapse < length self.now.replaced }
        ensures { option_map terms_in result ≡ slice_index_or self.now.replaced collapse None }
    {
        word_listed(self.words.get(self.numbers[collapse] as usize))
    }
}

// How many bytes a collapse takes: four for its number, and if its word is new, four and two for each number of its list.
fn bytes_taken(is_found: bool, numbers: usize) -> usize {
    if is_found {
        4
    } else {
        numbers.saturating_mul(2).saturating_add(8)
    }
}
