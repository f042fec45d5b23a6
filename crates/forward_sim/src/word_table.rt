ghost use Rattle.std.specs.Prelude.{◌≡◌, ◌<◌, [], ◌∷◌, ◌++◌, true, length, IfOk, IfSome, OnErr, OnOk, slice_index_or};
ghost use Rattle.forward_sim.specs.private.Kept.{HasAll};

use flat_lists::FlatLists;
use std::alloc::{AllocError, Allocator};
use std::marker::Model;

// A word is found again where none with the same slot came between.
const SLOTS: usize = 16384;

// How many numbers of a list tell in which slot it is. Later ones are left out, to save time.
const TELLING: usize = 16;

/// Words as lists of numbers, each by the number of its own. A list that comes again soon is found.
pub(crate) struct WordTable<A: Allocator + Copy> {
    words: FlatLists<u16, A>,
    // for each slot the number of the last word in it, if it has any
    latest: Vec<u32, A>,
}

impl<A: Allocator + Copy> Model for WordTable<A> {
    ghost use Rattle.std.specs.Prelude.{◌≡◌, ℕ, List, length};
    ghost use Rattle.forward_sim.specs.declared.word_table.TheConstants.{SLOTS};

    ghost Value = { List (List ℕ) };

    ghost view = { λ table. table.words };

    ghost invariant = { λ table. length table.latest.items ≡ SLOTS };
}

// Written out, so that it is a call in the proof of each function that owns one.
impl<A: Allocator + Copy> Drop for WordTable<A> {
    fn drop(self) {
        let WordTable { words, latest } = self;
        drop(words);
        drop(latest);
    }
}

impl<A: Allocator + Copy> WordTable<A> {
    /// No words.
    pub(crate) fn new(alloc: A) -> Result<Self, AllocError>
        ensures { IfOk result (λ table. table ≡ []) }
    {
        let latest = vec![in alloc; 0u32; SLOTS]?;
        Ok(WordTable {
            words: FlatLists::new(alloc),
            latest,
        })
    }

    /// The number of a word, if it is found.
    pub(crate) fn find(&self, word: &[u16]) -> Option<u32>
        ensures inside { IfSome result (λ number. number < length self.now) }
        ensures found { IfSome result (λ number. slice_index_or self.now number [] ≡ word.now) }
    {
        let number = self.latest[slot_of(word)];
        if (number as usize) < self.words.len() && is_same(self.words.get(number as usize), word) {
            Some(number)
        } else {
            None
        }
    }

    /// The number of a word: that which was found, or else the next, which it is given. Numbers stay.
    pub(crate) fn number(&mut self, found: Option<u32>, word: &[u16]) -> Result<u32, AllocError>
        requires inside { IfSome found (λ number. number < length self.old) }
        requires found { IfSome found (λ number. slice_index_or self.old number [] ≡ word.now) }
        ensures stay { HasAll self.old self.new }
        ensures inside { IfOk result (λ number. number < length self.new) }
        ensures word { IfOk result (λ number. slice_index_or self.new number [] ≡ word.now) }
    {
        match found {
            Some(number) => Ok(number),
            None => self.push(word),
        }
    }

    // Gives a word the next number, and answers that.
    fn push(&mut self, word: &[u16]) -> Result<u32, AllocError>
        ensures ok { OnOk result (self.new ≡ self.old ++ word.now ∷ []) }
        ensures err { OnErr result (self.new ≡ self.old) }
        ensures number { IfOk result (λ number. number ≡ length self.old) }
    {
        let number = number_after(self.words.len())?;
        self.words.push(word)?;
        self.latest[slot_of(word)] = number;
        Ok(number)
    }

    /// The word with a number.
    #[inline(always)]
    pub(crate) fn get(&self, number: usize) -> &[u16]
        requires { number < length self.now }
        ensures { result.now ≡ slice_index_or self.now number [] }
    {
        self.words.get(number)
    }
}

// Whether two words have the same list.
fn is_same(word: &[u16], other: &[u16]) -> bool
    ensures { result ≡ true → word.now ≡ other.now }
{
    word == other
}

// The number of the next word after so many.
fn number_after(words: usize) -> Result<u32, AllocError>
    ensures { IfOk result (λ number. number ≡ words) }
{
    if words > u32::MAX as usize {
        return Err(AllocError);
    }
    Ok(words as u32)
}

// The slot of a word.
fn slot_of(word: &[u16]) -> usize
    ensures { result < SLOTS }
{
    let mut mixed = word.len() as u64;
    for number in &word[..word.len().min(TELLING)] {
        mixed = mixed
            .wrapping_add(u64::from(*number))
            .wrapping_mul(0x9e37_79b9_7f4a_7c15);
    }
    (mixed >> 32) as usize % SLOTS
}
