ghost use Rattle.std.specs.Prelude.{◌≡◌, ◌<◌, Some, length, map, slice_get, slice_index_or};
ghost use Rattle.stim_lexer.specs.Kept.{item_in, items_kept, mark_in, mark_kept};

use flat_lists::FlatLists;
use std::alloc::Allocator;
use std::marker::Model;

/// An instruction of a text: the line that it stands on, what it does, the text between its parentheses, and its targets.
#[derive(Clone, Copy)]
pub struct Instruction<'c, 'a, O: Copy, T: Copy> {
    pub line: u64,
    pub operation: O,
    /// Empty also where there are no parentheses.
    pub arguments: &'a [u8],
    pub targets: &'c [T],
    /// What the reader of a format knows of the instruction by this number.
    pub mark: u32,
}

/// What stands at a place of a text: an instruction, the start of a block with its line and turns, or the end of the
/// innermost block.
#[derive(Clone, Copy)]
pub enum Item<'c, 'a, O: Copy, T: Copy> {
    InstructionLine(Instruction<'c, 'a, O, T>),
    BlockStart { line: u64, turns: u64 },
    BlockEnd,
}

/// What is kept of an item: all but the targets of an instruction.
#[derive(Clone, Copy)]
pub(crate) enum Node<'a, O> {
    // An operation is small and stands first, beside the tag, and the mark beside both: so a node takes 32 bytes and not 40.
    InstructionLine {
        operation: O,
        mark: u32,
        line: u64,
        arguments: &'a [u8],
    },
    BlockStart {
        line: u64,
        turns: u64,
    },
    BlockEnd,
}

/// Items in the order of the text. Blocks are kept flat, so no recursion is needed to go over them.
pub struct Items<'a, O: Copy, T: Copy, A: Allocator + Copy> {
    nodes: Vec<Node<'a, O>, A>,
    // A list for each node, empty where it isn't an instruction.
    targets: FlatLists<T, A>,
}

impl<'a, O: Copy, T: Copy, A: Allocator + Copy> Model for Items<'a, O, T, A> {
    ghost use Rattle.std.specs.Prelude.{◌≡◌, length, map};
    ghost use Rattle.stim_lexer.specs.Instructions.{Instruction};
    ghost use Rattle.stim_lexer.specs.Kept.{items_kept, mark_kept};
    ghost use Rattle.stim_lexer.specs.Marked.{Marked};

    ghost Value = { Marked (Instruction O T) };

    ghost view = { λ i. record { items = items_kept i.targets i.nodes.items; marks = map mark_kept i.nodes.items } };

    ghost invariant = { λ i. length i.nodes.items ≡ length i.targets };
}

// Written out, so that it is a call in the proof of each function that owns one.
impl<O: Copy, T: Copy, A: Allocator + Copy> Drop for Items<'_, O, T, A> {
    fn drop(self) {
        let Items { nodes, targets } = self;
        drop(nodes);
        drop(targets);
    }
}

impl<'a, O: Copy, T: Copy, A: Allocator + Copy> Items<'a, O, T, A> {
    /// The items of nodes with their targets, a list for each.
    pub(crate) fn of(nodes: Vec<Node<'a, O>, A>, targets: FlatLists<T, A>) -> Self
        requires { length nodes.items ≡ length targets }
        ensures { result
            ≡ record { items = items_kept targets nodes.entry.items; marks = map mark_kept nodes.entry.items } }
    {
        Items { nodes, targets }
    }

    /// How many items there are, with the ends of blocks.
    #[inline(always)]
    #[tactic(auto, using(crate::proofs::FlatLemmas::counts))]
    pub fn len(&self) -> usize
        ensures { result ≡ length self.now.items }
    {
        self.nodes.len()
    }

    /// The item at a place.
    #[inline(always)]
    #[tactic(auto, using(crate::proofs::FlatLemmas::counts))]
    pub fn get(&self, i: usize) -> Item<'_, 'a, O, T>
        requires { i < length self.now.items }
        ensures item { Some (item_in result) ≡ slice_get self.now.items i }
        ensures mark { mark_in result ≡ slice_index_or self.now.marks i 0 }
    {
        match self.nodes[i] {
            Node::InstructionLine {
                operation,
                mark,
                line,
                arguments,
            } => Item::InstructionLine(Instruction {
                line,
                operation,
                arguments,
                targets: self.targets.get(i),
                mark,
            }),
            Node::BlockStart { line, turns } => Item::BlockStart { line, turns },
            Node::BlockEnd => Item::BlockEnd,
        }
    }
}
