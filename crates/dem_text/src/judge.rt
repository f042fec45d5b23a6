//! The judge of an error model's lines, and one line of a text by itself: cut and judged.
ghost use Rattle.std.specs.Prelude.{◌≡◌, IfOk, ℕ, List, false, true, length, unwrap_or, MatchOption, MatchResult};
ghost use Rattle.stim_lexer.specs.Lexing.{cut_in};
ghost use Rattle.stim_lexer.specs.Said.{reading_in};
ghost use Rattle.stim_parser.specs.Judging.{reading_of};
ghost use Rattle.dem_text.specs.Fitting as fitting;
ghost use Rattle.dem_text.specs.Verdicts.{model_table, number_in};
ghost use Rattle.std.specs.List.{list_any};
ghost use Rattle.step_model.specs.declared.fault.Cause.TheVariants as cause;
ghost use Rattle.stim_lexer.specs.Bytes.{is_line_feed};
ghost use Rattle.stim_lexer.specs.Cut.{cut_of, has_bad_byte};
ghost use Rattle.stim_lexer.specs.Lines.{says_nothing};
ghost use Rattle.dem_text.specs.private.Lines.{IsReading, Speaks};

use crate::operation::{Operation, keyword_named};
use crate::target::{GREATEST_NUMBER, Target, TargetForm, are_of_form, is_target_beyond};
use std::alloc::{AllocError, Allocator};
use step_model::Cause;
use stim_lexer::{Line, LineTargets, Said, cut_line};
use stim_parser::{ArgumentForm, Causes, Judge, Keyword, Last, read_pieces};

/// How often a block is repeated, or by how much detectors shift, by the targets of the line.
pub fn number_in(targets: &[Target]) -> u64
    ensures { result ≡ number_in targets.now }
{
    match targets {
        [Target::Plain(number), ..] => *number,
        _ => 0,
    }
}

/// The judge of an error model's lines.
pub struct ModelJudge;

impl Judge<Operation, Target, TargetForm> for ModelJudge {
    ghost table = { model_table };

    ghost Fits = { fitting.Fits };

    #[inline(always)]
    fn keyword_named<'a>(_: &mut Last<'a>, name: &'a [u8]) -> Option<Keyword<Operation>> {
        keyword_named(name)
    }

    #[inline(always)]
    fn refusal_of_name(_: &[u8]) -> Cause {
        Cause::DemName
    }

    fn argument_form(keyword: Keyword<Operation>) -> ArgumentForm
        ensures { result ≡ model_table.argument_form keyword }
    {
        match keyword {
            Keyword::Does(Operation::PauliError) => ArgumentForm::OneProbability,
            Keyword::Does(Operation::DetectorDeclaration) | Keyword::Does(Operation::Shifts) => {
                ArgumentForm::WholeNumbers
            }
            Keyword::Does(Operation::ObservableInclude) | Keyword::Repeats =>
                ArgumentForm::NoArguments,
        }
    }

    #[inline(always)]
    fn greatest_coordinate() -> u64 {
        GREATEST_NUMBER
    }

    fn target_form(keyword: Keyword<Operation>) -> TargetForm
        ensures { result ≡ model_table.target_form keyword }
    {
        match keyword {
            Keyword::Does(Operation::PauliError) => TargetForm::Effects,
            Keyword::Does(Operation::DetectorDeclaration) => TargetForm::Detectors,
            Keyword::Does(Operation::ObservableInclude) => TargetForm::Observables,
            Keyword::Does(Operation::Shifts) | Keyword::Repeats => TargetForm::OneNumber,
        }
    }

    #[inline(always)]
    #[tactic(auto, unfolding(crate::specs::Targets::targets_in))]
    fn read_targets<L: LineTargets<Target>>(
        targets: &mut L,
        _: TargetForm,
        text: &[u8],
    ) -> Result<bool, AllocError> {
        read_pieces(targets, text)
    }

    #[inline(always)]
    fn are_right(_: TargetForm, _: &[u8], _: &[Target]) -> bool {
        false
    }

    #[inline(always)]
    fn are_of_form(form: TargetForm, targets: &[Target]) -> bool {
        are_of_form(form, targets)
    }

    #[tactic(auto, unfolding(crate::specs::Limits::has_target_beyond))]
    fn has_target_beyond(_: TargetForm, targets: &[Target]) -> bool {
        targets.iter().any(|target| is_target_beyond(*target))
    }

    #[inline(always)]
    fn refusal_of_targets(_: TargetForm, _: &[u8], _: &[Target]) -> Option<Cause> {
        None
    }

    #[inline(always)]
    fn turns_of(targets: &[Target]) -> u64 {
        number_in(targets)
    }

    #[inline(always)]
    fn causes() -> Causes {
        Causes {
            block: Cause::DemBlock,
            arguments: Cause::DemArguments,
            probability: Cause::DemArguments,
            target: Cause::DemTarget,
            number: Cause::DemNumber,
            repeat_zero: Cause::DemRepeatZero,
            depth: Cause::DemDepth,
        }
    }
}

/// Reads a cut line where `depth` blocks are open, and puts its targets into `targets`, in place of what it held. Where
/// the line is no accepted instruction, nothing is promised of `targets`.
pub fn read_line<'a, A: Allocator + Copy>(
    last: &mut Last<'a>,
    targets: &mut Vec<Target, A>,
    depth: usize,
    line: Line<'a>,
) -> Result<Said<'a, Operation>, AllocError>
    ensures { IfOk result (λ said. reading_in line.entry.number said targets.new.items
        ≡ reading_of model_table depth line.entry.number (cut_in line.entry)) }
{
    stim_parser::read_line::<Operation, Target, TargetForm, ModelJudge, Vec<Target, A>>(
        last, targets, depth, line,
    )
}

/// What the line of a number says where so many blocks are open, with its targets in `targets`, in place of what that held; none
/// where it says nothing.
pub(crate) fn said_in<'w, A: Allocator + Copy>(
    last: &mut Last<'w>,
    targets: &mut Vec<Target, A>,
    depth: usize,
    number: u64,
    line: &'w [u8],
) -> Result<Option<Said<'w, Operation>>, AllocError>
    requires { list_any is_line_feed line.now ≡ false }
    ensures { IfOk result (λ found. MatchOption found (says_nothing line.now ≡ true)
        (λ said. (says_nothing line.now ≡ false)
        × IsReading depth number line.now (reading_in number said targets.new.items))) }
{
    match cut_line(number, line) {
        Ok(Some(cut)) => Ok(Some(read_line(last, targets, depth, cut)?)),
        Ok(None) => Ok(None),
        Err(fault) => Ok(Some(Said::Refuses(fault.cause))),
    }
}

/// The text of the targets of a line that was accepted.
pub(crate) fn targets_of(line: &[u8]) -> &[u8]
    requires { Speaks line.now }
    ensures { result.now ≡ (cut_of line.now).targets }
{
    match cut_line(0, line) {
        Ok(Some(cut)) => cut.targets,
        _ => unreachable!(),
    }
}
