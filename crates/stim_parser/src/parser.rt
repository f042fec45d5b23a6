ghost use Rattle.std.specs.Prelude.{◌≡◌, ◌⊎◌, IfOk, IfErr};
ghost use Rattle.step_model.specs.Faults.{memory_fault};
ghost use Rattle.stim_parser.specs.Judged.{Writes, IsRefusedBy};

use crate::circuit::Circuit;
use crate::circuit_judge::CircuitJudge;
use crate::forms::TargetForm;
use crate::operation::Operation;
use crate::reader::read_text;
use crate::target_word::TargetWord;
use std::alloc::Allocator;
use step_model::Fault;

/// The circuit that a text writes, or the first refusal of its lines. The cause is `Memory`, and the line 0, only where
/// memory runs out.
pub fn parse<'a, A: Allocator + Copy>(alloc: A, text: &'a [u8]) -> Result<Circuit<'a, A>, Fault>
    ensures ok { IfOk result (λ circuit. Writes text.now circuit) }
    ensures err { IfErr result (λ fault. (fault ≡ memory_fault) ⊎ IsRefusedBy text.now fault) }
{
    read_text::<Operation, TargetWord, TargetForm, CircuitJudge, A>(alloc, text)
}
