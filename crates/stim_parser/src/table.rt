ghost use Rattle.std.specs.Prelude.{◌≡◌, None, Some, false, true, IfOk, MatchBool};
ghost use Rattle.stim_lexer.specs.Instructions.{Instruction};
ghost use Rattle.stim_parser.specs.Judging.{Table, first_of};
ghost use Rattle.stim_parser.specs.private.Right.{AreRight};

use crate::forms::ArgumentForm;
use crate::last::Last;
use std::alloc::AllocError;
use step_model::Cause;
use stim_lexer::LineTargets;

/// What a name says: an instruction, or the start of a block.
#[derive(Clone, Copy)]
pub enum Keyword<O> {
    Does(O),
    Repeats,
}

/// The causes of the refusals that each format has.
#[derive(Clone, Copy)]
pub struct Causes {
    pub block: Cause,
    pub arguments: Cause,
    pub probability: Cause,
    pub target: Cause,
    pub number: Cause,
    pub repeat_zero: Cause,
    pub depth: Cause,
}

/// What a format, such as that of circuits or of error models, says of its lines.
pub trait Judge<O: Copy, T: Copy, F: Copy> {
    ghost table: { Table O T F };

    // What holds of each instruction that isn't refused.
    ghost Fits: { Instruction O T → Type 0 };

    /// The keyword that a name names. The name that was looked up last may be remembered.
    fn keyword_named<'a>(last: &mut Last<'a>, name: &'a [u8]) -> Option<Keyword<O>>
        ensures { result ≡ table.keyword_named name.now };

    /// The cause of the refusal of a name that names no keyword.
    fn refusal_of_name(name: &[u8]) -> Cause
        ensures { result ≡ table.refusal_of_name name.now };

    /// The arguments that a keyword takes.
    fn argument_form(keyword: Keyword<O>) -> ArgumentForm
        ensures { result ≡ table.argument_form keyword };

    /// The greatest magnitude of a coordinate.
    fn greatest_coordinate() -> u64
        ensures { result ≡ table.greatest_coordinate };

    /// The form of the targets that a keyword takes.
    fn target_form(keyword: Keyword<O>) -> F
        ensures { result ≡ table.target_form keyword };

    /// Puts the targets of a line in place of those that were there. Answers whether each can be read.
    fn read_targets<L: LineTargets<T>>(
        targets: &mut L,
        form: F,
        text: &[u8],
    ) -> Result<bool, AllocError>
        ensures read { IfOk result (λ all. MatchBool all
            (table.line_targets form text.now ≡ Some (L.targets targets.new))
            (table.line_targets form text.now ≡ None)) }
        ensures others { IfOk result (λ all. L.others targets.new ≡ L.others targets.old) };

    /// Whether it is found at once that nothing is wrong with the targets of a line. Then no other
    /// question has to be asked.
    fn are_right(form: F, text: &[u8], targets: &[T]) -> bool
        ensures { result ≡ true → AreRight table form text.now targets.now };

    /// Whether targets are of a form.
    fn are_of_form(form: F, targets: &[T]) -> bool
        ensures { result ≡ table.are_of_form form targets.now };

    /// Whether the number of one of the targets is beyond its limit.
    fn has_target_beyond(form: F, targets: &[T]) -> bool
        ensures { result ≡ table.has_target_beyond form targets.now };

    /// The refusal by what the format asks of targets besides.
    fn refusal_of_targets(form: F, text: &[u8], targets: &[T]) -> Option<Cause>
        requires { table.has_target_beyond form targets.now ≡ false }
        ensures { result ≡ first_of (table.refusals_of_targets form text.now targets.now) };

    /// How often a block is repeated, by the targets of its line.
    fn turns_of(targets: &[T]) -> u64
        ensures { result ≡ table.turns_of targets.now };

    fn causes() -> Causes
        ensures { result ≡ table.causes };
}
