ghost use Rattle.std.specs.Prelude.{◌≡◌, ◌<◌, ◌≤◌, ◌+◌, ◌^◌, ◌⊎◌, length, IfOk, IfErr, OnOk, Ok, None, Some};
ghost use Rattle.step_model.specs.Faults.{memory_fault};
ghost use Rattle.stim_lexer.specs.Lexing.{cut_in};
ghost use Rattle.stim_lexer.specs.Fitting.{LinesFit};
ghost use Rattle.stim_lexer.specs.Texts.{items_in};
ghost use Rattle.stim_lexer.specs.Judged.{IsRefusedBy, Writes};
ghost use Rattle.stim_lexer.specs.Unfinished.{after_line, cause_in, reading_at};
ghost use Rattle.step_model.specs.Chances.{KeepsChances};
ghost use Rattle.stim_parser.specs.Judging.{format_of};
ghost use Rattle.stim_parser.specs.Probabilities.{Keeps, Remembers, SaidMarked, marked_in, taken_count};

use crate::argument_checks::takes_probability;
use crate::judge::read_line;
use crate::judged_text::{JudgedText, Numbered};
use crate::last::{Last, LastParentheses};
use crate::table::{Judge, Keyword};
use std::alloc::{AllocError, Allocator};
use step_model::{ChanceText, Fault, number_of};
use stim_lexer::{Builder, Lexer, Line, Said};

/// A number as a mark: what is beyond all marks has the greatest one.
fn mark_from(number: usize) -> u32
    ensures { number < 2 ^ 32 → result ≡ number }
{
    if number < 1 << 32 {
        number as u32
    } else {
        u32::MAX
    }
}

/// The mark of what a line says: where it is an instruction with a probability, the number of that among the texts.
fn mark_of<'a, O: Copy, T: Copy, F: Copy, J: Judge<O, T, F>, A: Allocator + Copy>(
    texts: &mut Vec<ChanceText<'a>, A>,
    last: &LastParentheses<'a>,
    said: &Said<'a, O>,
) -> Result<u32, AllocError>
    requires { Remembers J.table said.now last.now }
    ensures kept { KeepsChances texts.old.items texts.new.items }
    ensures few { length texts.new.items ≤ length texts.old.items + taken_count said.now }
    ensures marked { IfOk result (λ mark. SaidMarked J.table texts.new.items said.now mark) }
{
    let Said::Accepts { operation, .. } = *said else {
        return Ok(0);
    };
    if !takes_probability(J::argument_form(Keyword::Does(operation))) {
        return Ok(0);
    }
    let Some(chance) = last.chance() else {
        return Ok(0);
    };
    let number = number_of(texts, chance.text, chance.bound)?;
    Ok(mark_from(number))
}

/// Reads the next line, or answers its refusal. The cause is `Memory` only where memory runs out.
fn read_next<'a, O: Copy, T: Copy, F: Copy, J: Judge<O, T, F>, A: Allocator + Copy>(
    builder: &mut Builder<'a, O, T, A>,
    texts: &mut Vec<ChanceText<'a>, A>,
    last: &mut Last<'a>,
    line: Line<'a>,
) -> Result<(), Fault>
    requires { Keeps J.table texts.old.items (marked_in builder.old) }
    ensures accepted { OnOk result
        (cause_in
        (reading_at (format_of J.table) builder.old.text line.entry.number (cut_in line.entry))
        ≡ None) }
    ensures after { OnOk result
        (builder.new.text
        ≡ after_line line.entry.number
        (reading_at (format_of J.table) builder.old.text line.entry.number (cut_in line.entry))
        builder.old.text) }
    ensures kept { OnOk result (Keeps J.table texts.new.items (marked_in builder.new)) }
    ensures err { IfErr result (λ fault. (fault ≡ memory_fault)
        ⊎ ((fault.line ≡ line.entry.number)
        × (cause_in
        (reading_at (format_of J.table) builder.old.text line.entry.number (cut_in line.entry))
        ≡ Some fault.cause))) }
{
    let number = line.number;
    let depth = builder.depth();
    let said = read_line::<O, T, F, J, Builder<'a, O, T, A>>(last, builder, depth, line)?;
    let mark = mark_of::<O, T, F, J, A>(texts, &last.parentheses, &said)?;
    match builder.take_read(number, said, mark)? {
        Some(cause) => Err(Fault {
            cause,
            line: number,
        }),
        None => Ok(()),
    }
}

/// The items of a text in the format of a judge with the texts of their probabilities, or the text's refusal. The cause is
/// `Memory` only where memory runs out.
fn read_items<'a, O: Copy, T: Copy, F: Copy, J: Judge<O, T, F>, A: Allocator + Copy>(
    alloc: A,
    text: &'a [u8],
) -> Result<Numbered<'a, O, T, A>, Fault>
    ensures ok { IfOk result (λ read. items_in (format_of J.table) text.now ≡ Ok read.items.items) }
    ensures kept { IfOk result (λ read. Keeps J.table read.texts.items read.items) }
    ensures err { IfErr result (λ fault. (fault ≡ memory_fault)
        ⊎ IsRefusedBy (format_of J.table) text.now fault) }
{
    let mut lexer = Lexer::new(text);
    let mut builder = Builder::new(alloc);
    let mut texts = Vec::new(alloc);
    let mut last = Last::new();
    while let Some(line) = lexer.next_line()? {
        read_next::<O, T, F, J, A>(&mut builder, &mut texts, &mut last, line)?;
    }
    let items = builder.finish(J::causes().block)?;
    Ok(Numbered { items, texts })
}

/// What a text writes in the format of a judge, or the first refusal of its lines. The cause is `Memory`, and the line 0,
/// only where memory runs out.
pub fn read_text<'a, O: Copy, T: Copy, F: Copy, J: Judge<O, T, F>, A: Allocator + Copy>(
    alloc: A,
    text: &'a [u8],
) -> Result<JudgedText<'a, O, T, F, J, A>, Fault>
    requires { LinesFit J.Fits (format_of J.table) }
    ensures ok { IfOk result (λ read. Writes (format_of J.table) text.now read) }
    ensures err { IfErr result (λ fault. (fault ≡ memory_fault)
        ⊎ IsRefusedBy (format_of J.table) text.now fault) }
{
    let read = read_items::<O, T, F, J, A>(alloc, text)?;
    Ok(JudgedText::new(read))
}
