ghost use Rattle.std.specs.Prelude.{◌≡◌, ◌≢◌, ◌==◌, if◌then◌else◌, ℕ, List, None, Some, true, false, IfOk};
ghost use Rattle.stim_lexer.specs.Lexing.{cut_in};
ghost use Rattle.stim_lexer.specs.Said.{reading_in};
ghost use Rattle.stim_lexer.specs.Texts.{Closes, Refuses};
ghost use Rattle.stim_parser.specs.declared.forms.ArgumentForm.TheVariants.{NoArguments, WholeNumbers};
ghost use Rattle.stim_parser.specs.Parentheses.{Parentheses};
ghost use Rattle.stim_parser.specs.Probabilities.{Remembers, RemembersText, TakesNothing};
ghost use Rattle.stim_parser.specs.Judging.{accepted, first_of, misplaces_brace, opens_block, reading_of, read_targets, unless_refused};
ghost use Rattle.stim_parser.specs.private.Questions.{AreWholeNumbers, ArgumentsOf, refusals_of_block, refusals_of_keyword, refusals_of_read};

use crate::argument_checks::{
    chance_of, has_number_beyond, has_wrong_arguments, has_wrong_probability, takes_probability,
};
use crate::arguments::read_arguments;
use crate::forms::ArgumentForm;
use crate::last::Last;
use crate::short_numbers::{GREATEST_SHORT, are_short};
use crate::table::{Causes, Judge, Keyword};
use crate::whole_numbers::{are_beyond, put_whole_numbers};
use arrayvec::ArrayVec;
use std::alloc::AllocError;
use step_model::Cause;
use stim_lexer::{Braces, LEVELS, Line, LineTargets, Said};

/// Whether the braces of a line stand otherwise than its keyword asks.
fn misplaces_brace<O: Copy>(keyword: Option<Keyword<O>>, braces: Braces) -> bool
    ensures { result ≡ misplaces_brace keyword braces }
{
    let opens = matches!(keyword, Some(Keyword::Repeats));
    match braces {
        Braces::NoBrace => opens,
        Braces::OpeningLast => !opens,
        Braces::ClosingAlone | Braces::Misplaced => true,
    }
}

#[inline(always)]
fn takes_no_arguments(form: ArgumentForm) -> bool
    ensures { result ≡ true → form ≡ NoArguments }
{
    matches!(form, ArgumentForm::NoArguments)
}

/// Whether an argument of a line is beyond its limit, where they are of the number and the form that its keyword takes;
/// otherwise the refusal.
#[inline(always)]
fn arguments_of<'a>(
    last: &mut Last<'a>,
    causes: Causes,
    greatest: u64,
    form: ArgumentForm,
    line: Line<'a>,
) -> Result<bool, Cause>
    ensures refusal { ArgumentsOf causes greatest form (cut_in line.entry) result }
    ensures last { IfOk result (λ beyond. RemembersText form line.entry.arguments.now
        last.new.parentheses) }
{
    if line.stays_open {
        return Err(causes.arguments);
    }
    if takes_no_arguments(form) && line.arguments.is_empty() {
        return Ok(false);
    }
    if let ArgumentForm::WholeNumbers = form {
        return match whole_numbers_of(greatest, line.arguments) {
            Some(beyond) => Ok(beyond),
            None => Err(causes.arguments),
        };
    }
    if last.parentheses.recall(form, line.arguments) {
        return Ok(false);
    }
    closed_arguments_of(last, causes, greatest, form, line)
}

/// Whether one of the whole numbers that are the arguments of a text is greater than the greatest; none
/// where they are of another number or form. Most are short, and found so at once. It stands apart,
/// since other lines have the registers to themselves then.
#[inline(never)]
fn whole_numbers_of(greatest: u64, text: &[u8]) -> Option<bool>
    ensures { AreWholeNumbers greatest text.now result }
{
    if GREATEST_SHORT <= greatest && are_short(text) {
        return Some(false);
    }
    whole_numbers_in(greatest, text)
}

/// The same, where the numbers are kept first. It stands apart, since the list would be cleared at each
/// line.
#[inline(never)]
fn whole_numbers_in(greatest: u64, text: &[u8]) -> Option<bool>
    ensures { AreWholeNumbers greatest text.now result }
{
    let mut numbers = ArrayVec::new();
    if put_whole_numbers(&mut numbers, text) {
        Some(are_beyond(greatest, numbers.as_slice()))
    } else {
        None
    }
}

/// The same for a line that takes others, and on which no tag and no parentheses stay open.
#[inline(never)]
fn closed_arguments_of<'a>(
    last: &mut Last<'a>,
    causes: Causes,
    greatest: u64,
    form: ArgumentForm,
    line: Line<'a>,
) -> Result<bool, Cause>
    requires closed { line.stays_open ≡ false }
    requires other { form ≢ WholeNumbers }
    ensures refusal { ArgumentsOf causes greatest form (cut_in line.entry) result }
    ensures last { IfOk result (λ beyond. RemembersText form line.entry.arguments.now
        last.new.parentheses) }
{
    let Some(arguments) = read_arguments(line.arguments) else {
        return Err(causes.arguments);
    };
    if has_wrong_arguments(form, arguments.as_slice()) {
        return Err(causes.arguments);
    }
    if has_wrong_probability(&mut last.probability, form, arguments.as_slice()) {
        return Err(causes.probability);
    }
    if takes_probability(form) {
        let chance = chance_of(&mut last.probability, arguments.as_slice());
        last.parentheses.keep(form, line.arguments, chance);
    }
    Ok(has_number_beyond(form, arguments.as_slice()))
}

fn opens_block<O: Copy>(keyword: Keyword<O>) -> bool
    ensures { result ≡ opens_block keyword }
{
    matches!(keyword, Keyword::Repeats)
}

/// The refusal of a block, by how often it is repeated. There is none of a line that opens no block.
fn refusal_of_block<O: Copy, T: Copy, F: Copy, J: Judge<O, T, F>>(
    depth: usize,
    keyword: Keyword<O>,
    targets: &[T],
) -> Option<Cause>
    ensures { result
        ≡ first_of (refusals_of_block J.table.causes depth keyword (J.table.turns_of targets.now)) }
{
    if !opens_block(keyword) {
        return None;
    }
    if J::turns_of(targets) == 0 {
        return Some(J::causes().repeat_zero);
    }
    if depth >= LEVELS {
        return Some(J::causes().depth);
    }
    None
}

/// The refusal of a line by its targets, which were read from a text, and by the block that it opens.
/// `beyond` says whether an argument is beyond its limit. It stands apart, since few lines need it.
#[inline(never)]
fn refusal_by_questions<O: Copy, T: Copy, F: Copy, J: Judge<O, T, F>>(
    depth: usize,
    keyword: Keyword<O>,
    beyond: bool,
    form: F,
    text: &[u8],
    targets: &[T],
) -> Option<Cause>
    ensures { result
        ≡ first_of (refusals_of_read J.table depth keyword beyond form text.now
        (Some targets.now)) }
{
    if !J::are_of_form(form, targets) {
        return Some(J::causes().target);
    }
    if beyond || J::has_target_beyond(form, targets) {
        return Some(J::causes().number);
    }
    match J::refusal_of_targets(form, text, targets) {
        Some(cause) => Some(cause),
        None => refusal_of_block::<O, T, F, J>(depth, keyword, targets),
    }
}

/// The same, for most lines by one question.
#[inline(always)]
fn refusal_of_read<O: Copy, T: Copy, F: Copy, J: Judge<O, T, F>>(
    depth: usize,
    keyword: Keyword<O>,
    beyond: bool,
    form: F,
    text: &[u8],
    targets: &[T],
) -> Option<Cause>
    ensures { result
        ≡ first_of (refusals_of_read J.table depth keyword beyond form text.now
        (Some targets.now)) }
{
    if !beyond && !opens_block(keyword) && J::are_right(form, text, targets) {
        return None;
    }
    refusal_by_questions::<O, T, F, J>(depth, keyword, beyond, form, text, targets)
}

/// The refusal of a line with this keyword, where `depth` blocks are open. Where there is none, `targets` has the
/// line's targets then.
fn refusal_of<'a, O: Copy, T: Copy, F: Copy, J: Judge<O, T, F>, L: LineTargets<T>>(
    last: &mut Last<'a>,
    targets: &mut L,
    depth: usize,
    keyword: Keyword<O>,
    line: Line<'a>,
) -> Result<Option<Cause>, AllocError>
    ensures refusal { IfOk result (λ refusal. refusal
        ≡ first_of (refusals_of_keyword J.table depth keyword (cut_in line.entry))) }
    ensures targets { IfOk result (λ refusal. refusal ≡ None
        → L.targets targets.new
        ≡ read_targets J.table (J.table.target_form keyword) line.entry.targets.now) }
    ensures others { IfOk result (λ refusal. L.others targets.new ≡ L.others targets.old) }
    ensures last { IfOk result (λ refusal. refusal ≡ None
        → RemembersText (J.table.argument_form keyword) line.entry.arguments.now
        last.new.parentheses) }
{
    let asked = J::argument_form(keyword);
    let beyond = match arguments_of(last, J::causes(), J::greatest_coordinate(), asked, line) {
        Ok(beyond) => beyond,
        Err(cause) => return Ok(Some(cause)),
    };
    let form = J::target_form(keyword);
    if !J::read_targets(targets, form, line.targets)? {
        return Ok(Some(J::causes().target));
    }
    Ok(refusal_of_read::<O, T, F, J>(
        depth,
        keyword,
        beyond,
        form,
        line.targets,
        targets.as_slice(),
    ))
}

/// What a line says that isn't refused.
fn accepted<'a, O: Copy, T: Copy, F: Copy, J: Judge<O, T, F>>(
    keyword: Keyword<O>,
    line: Line<'a>,
    targets: &[T],
) -> Said<'a, O>
    requires { targets.now ≡ read_targets J.table (J.table.target_form keyword) line.targets.now }
    ensures reading { reading_in line.entry.number result targets.now
        ≡ accepted J.table line.entry.number (Some keyword) (cut_in line.entry) }
    ensures last { (last : Parentheses)
        → RemembersText (J.table.argument_form keyword) line.entry.arguments.now last
        → Remembers J.table result last }
{
    match keyword {
        Keyword::Repeats => Said::Opens(J::turns_of(targets)),
        Keyword::Does(operation) => Said::Accepts {
            operation,
            arguments: line.arguments,
        },
    }
}

/// What a line says that closes a block, where so many are open.
fn closed_at<'a, O: Copy, T: Copy>(causes: Causes, depth: usize) -> Said<'a, O>
    ensures reading { (number : ℕ) (targets : List T)
        → reading_in number result targets ≡ (if depth == 0 then Refuses causes.block else Closes) }
    ensures nothing { TakesNothing result }
{
    if depth == 0 {
        Said::Refuses(causes.block)
    } else {
        Said::Closes
    }
}

/// What a line with this keyword says, whose braces stand as the keyword asks.
#[inline(always)]
fn said_with<'a, O: Copy, T: Copy, F: Copy, J: Judge<O, T, F>, L: LineTargets<T>>(
    last: &mut Last<'a>,
    targets: &mut L,
    depth: usize,
    keyword: Keyword<O>,
    line: Line<'a>,
) -> Result<Said<'a, O>, AllocError>
    ensures reading { IfOk result (λ said. reading_in line.entry.number said (L.targets targets.new)
        ≡ unless_refused
        (first_of (refusals_of_keyword J.table depth keyword (cut_in line.entry)))
        (accepted J.table line.entry.number (Some keyword) (cut_in line.entry))) }
    ensures others { IfOk result (λ said. L.others targets.new ≡ L.others targets.old) }
    ensures last { IfOk result (λ said. Remembers J.table said last.new.parentheses) }
{
    match refusal_of::<O, T, F, J, L>(last, targets, depth, keyword, line)? {
        Some(cause) => Ok(Said::Refuses(cause)),
        None => Ok(accepted::<O, T, F, J>(keyword, line, targets.as_slice())),
    }
}

/// Reads a cut line where `depth` blocks are open, and puts its targets into `targets`, in place of what it held. Where
/// the line is no accepted instruction, nothing is promised of `targets`.
#[tactic(auto, unfolding(crate::specs::Judging::reading_of))]
pub fn read_line<'a, O: Copy, T: Copy, F: Copy, J: Judge<O, T, F>, L: LineTargets<T>>(
    last: &mut Last<'a>,
    targets: &mut L,
    depth: usize,
    line: Line<'a>,
) -> Result<Said<'a, O>, AllocError>
    ensures reading { IfOk result (λ said. reading_in line.entry.number said (L.targets targets.new)
        ≡ reading_of J.table depth line.entry.number (cut_in line.entry)) }
    ensures others { IfOk result (λ said. L.others targets.new ≡ L.others targets.old) }
    ensures last { IfOk result (λ said. Remembers J.table said last.new.parentheses) }
{
    match line.braces {
        Braces::ClosingAlone => Ok(closed_at::<O, T>(J::causes(), depth)),
        _ => {
            let keyword = J::keyword_named(last, line.name);
            if misplaces_brace(keyword, line.braces) {
                return Ok(Said::Refuses(J::causes().block));
            }
            match keyword {
                Some(keyword) => said_with::<O, T, F, J, L>(last, targets, depth, keyword, line),
                None => Ok(Said::Refuses(J::refusal_of_name(line.name))),
            }
        }
    }
}
