//! Texts of lines and blocks while they are read, line by line.
ghost use Rattle.std.specs.Prelude.{◌≡◌, ◌∷◌, ◌++◌, ℕ, List, [], Some, length, IfOk, IfErr, OnOk};
ghost use Rattle.stim_lexer.specs.Kept.{item_kept, mark_kept};
ghost use Rattle.stim_lexer.specs.Marked.{but_targets, line_marks, nothing_begun};
ghost use Rattle.stim_lexer.specs.Said.{OpensFew, reading_in};
ghost use Rattle.stim_lexer.specs.Judged.{left_open};
ghost use Rattle.stim_lexer.specs.Instructions.{Instruction};
ghost use Rattle.stim_lexer.specs.Unfinished.{Unfinished, after_line, cause_in};

use crate::blocks::LEVELS;
use crate::items::{Items, Node};
use crate::line_targets::LineTargets;
use crate::said::Said;
use arrayvec::ArrayVec;
use flat_lists::GrowingLists;
use std::alloc::{AllocError, Allocator};
use std::marker::Model;
use step_model::{Cause, Fault};

/// A text that is read line by line. The targets of a line are read where they stay (`LineTargets`).
pub struct Builder<'a, O: Copy, T: Copy, A: Allocator + Copy> {
    nodes: Vec<Node<'a, O>, A>,
    // A list for each node, empty where it isn't an instruction, and the targets of the line that is read.
    targets: GrowingLists<T, A>,
    // The lines of the open blocks, the outermost first.
    blocks: ArrayVec<u64, LEVELS>,
}

impl<'a, O: Copy, T: Copy, A: Allocator + Copy> Model for Builder<'a, O, T, A> {
    ghost use Rattle.std.specs.Prelude.{◌≡◌, length, map, reverse};
    ghost use Rattle.stim_lexer.specs.Instructions.{Instruction};
    ghost use Rattle.stim_lexer.specs.Kept.{items_kept, mark_kept};
    ghost use Rattle.stim_lexer.specs.Marked.{Begun};

    ghost Value = { Begun (Instruction O T) T };

    ghost view = { λ b. record { text = record { items = items_kept b.targets.lists b.nodes.items; opened = reverse b.blocks.items }; marks = map mark_kept b.nodes.items; targets = b.targets.next } };

    ghost invariant = { λ b. length b.nodes.items ≡ length b.targets.lists };
}

// Written out, so that it is a call in the proof of each function that owns one.
impl<O: Copy, T: Copy, A: Allocator + Copy> Drop for Builder<'_, O, T, A> {
    fn drop(self) {
        let Builder {
            nodes,
            targets,
            blocks,
        } = self;
        drop(nodes);
        drop(targets);
        drop(blocks);
    }
}

impl<'a, O: Copy, T: Copy, A: Allocator + Copy> LineTargets<T> for Builder<'a, O, T, A> {
    ghost targets = { λ b. b.targets };

    ghost Others = { Unfinished (Instruction O T) × List ℕ };

    ghost others = { but_targets };

    #[inline(always)]
    fn clear(&mut self) {
        self.targets.clear();
    }

    #[inline(always)]
    fn push(&mut self, target: T) -> Result<(), AllocError> {
        self.targets.push(target)
    }

    #[inline(always)]
    fn as_slice(&self) -> &[T] {
        self.targets.next_items()
    }
}

impl<'a, O: Copy, T: Copy, A: Allocator + Copy> Builder<'a, O, T, A> {
    /// A text of which no line was read. Takes no memory.
    pub fn new(alloc: A) -> Self
        ensures { result ≡ nothing_begun }
    {
        Builder {
            nodes: Vec::new(alloc),
            targets: GrowingLists::new(alloc),
            blocks: ArrayVec::new(),
        }
    }

    /// How many blocks are open.
    #[inline(always)]
    pub fn depth(&self) -> usize
        ensures { result ≡ length self.now.text.opened }
    {
        self.blocks.len()
    }

    /// Appends a node with the targets that were read. It fails only where memory runs out.
    #[inline(always)]
    fn add(&mut self, node: Node<'a, O>) -> Result<(), AllocError>
        ensures items { OnOk result
            (self.new.text.items ≡ self.old.text.items ++ item_kept self.old.targets node.entry ∷ []) }
        ensures marks { OnOk result (self.new.marks ≡ self.old.marks ++ mark_kept node.entry ∷ []) }
        ensures opened { OnOk result (self.new.text.opened ≡ self.old.text.opened) }
    {
        // Room for the node first, so that there is one for each list also where memory runs out.
        self.nodes.reserve(1)?;
        self.targets.end()?;
        self.nodes.push_reserved(node);
        Ok(())
    }

    /// Appends a node without targets. It fails only where memory runs out.
    #[inline(never)]
    fn add_bare(&mut self, node: Node<'a, O>) -> Result<(), AllocError>
        ensures items { OnOk result
            (self.new.text.items ≡ self.old.text.items ++ item_kept [] node.entry ∷ []) }
        ensures marks { OnOk result (self.new.marks ≡ self.old.marks ++ mark_kept node.entry ∷ []) }
        ensures opened { OnOk result (self.new.text.opened ≡ self.old.text.opened) }
    {
        self.targets.clear();
        self.add(node)
    }

    /// Adds what the line of a number says, whose targets were read here, with a mark where it is an instruction. Answers
    /// the cause where the line is refused. It fails only where memory runs out; what was read before can't be used then.
    pub fn take_read(
        &mut self,
        line: u64,
        said: Said<'a, O>,
        mark: u32,
    ) -> Result<Option<Cause>, AllocError>
        requires { OpensFew (length self.old.text.opened) said }
        ensures refused { IfOk result (λ refused. refused
            ≡ cause_in (reading_in line said.entry self.old.targets)) }
        ensures after { IfOk result (λ refused. self.new.text
            ≡ after_line line (reading_in line said.entry self.old.targets) self.old.text) }
        ensures marks { IfOk result (λ refused. self.new.marks
            ≡ self.old.marks ++ line_marks said.entry mark) }
    {
        match said {
            Said::Accepts {
                operation,
                arguments,
            } => {
                let node = Node::InstructionLine {
                    operation,
                    mark,
                    line,
                    arguments,
                };
                self.add(node)?
            }
            Said::Opens(turns) => {
                self.add_bare(Node::BlockStart { line, turns })?;
                self.blocks.push(line);
            }
            Said::Closes => {
                self.add_bare(Node::BlockEnd)?;
                self.blocks.pop();
            }
            Said::Refuses(cause) => return Ok(Some(cause)),
        }
        Ok(None)
    }

    /// Puts copies of targets in place of those that were read here, where a line says an instruction. Of a line that says
    /// something else they may be those of a line before it. It fails only where memory runs out.
    fn copy_targets(&mut self, said: &Said<'a, O>, targets: &[T]) -> Result<(), AllocError>
        ensures targets { OnOk result ((line : ℕ)
            → reading_in line said.now self.new.targets ≡ reading_in line said.now targets.now) }
        ensures others { OnOk result (but_targets self.new ≡ but_targets self.old) }
    {
        self.targets.clear();
        match said {
            Said::Accepts { .. } => self.targets.extend(targets),
            _ => Ok(()),
        }
    }

    /// Does what `take_read` does, with targets that were read elsewhere. It keeps a copy of those of an instruction.
    pub fn take(
        &mut self,
        line: u64,
        said: Said<'a, O>,
        mark: u32,
        targets: &[T],
    ) -> Result<Option<Cause>, AllocError>
        requires { OpensFew (length self.old.text.opened) said }
        ensures refused { IfOk result (λ refused. refused
            ≡ cause_in (reading_in line said.entry targets.now)) }
        ensures after { IfOk result (λ refused. self.new.text
            ≡ after_line line (reading_in line said.entry targets.now) self.old.text) }
        ensures marks { IfOk result (λ refused. self.new.marks
            ≡ self.old.marks ++ line_marks said.entry mark) }
    {
        self.copy_targets(&said, targets)?;
        self.take_read(line, said, mark)
    }

    /// The items that were read. Where a block is left open, the refusal for this cause, with the line of the innermost.
    pub fn finish(self, cause: Cause) -> Result<Items<'a, O, T, A>, Fault>
        ensures opened { IfOk result (λ items. self.entry.text.opened ≡ []) }
        ensures items { IfOk result (λ items. items
            ≡ record { items = self.entry.text.items; marks = self.entry.marks }) }
        ensures err { IfErr result (λ fault. left_open cause self.entry.text.opened ≡ Some fault) }
    {
        let Builder {
            nodes,
            targets,
            mut blocks,
        } = self;
        match blocks.pop() {
            Some(line) => Err(Fault { cause, line }),
            None => Ok(Items::of(nodes, targets.finish())),
        }
    }
}
