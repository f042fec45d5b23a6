use crate::circuit_judge::CircuitJudge;
use crate::forms::TargetForm;
use crate::judged_text::JudgedText;
use crate::operation::Operation;
use crate::target_word::TargetWord;

/// An instruction of a circuit: the line that it stands on, what it does, the text between its parentheses, and its
/// targets.
pub type Instruction<'c, 'a> = stim_lexer::Instruction<'c, 'a, Operation, TargetWord>;

/// What stands at a place of a circuit: an instruction, the start of a block by its line and its turns, or the end of
/// the innermost block.
pub type Item<'c, 'a> = stim_lexer::Item<'c, 'a, Operation, TargetWord>;

/// A circuit as its text writes it, its blocks among its instructions. Each instruction has the arguments and targets
/// that its operation takes.
pub type Circuit<'a, A> = JudgedText<'a, Operation, TargetWord, TargetForm, CircuitJudge, A>;
