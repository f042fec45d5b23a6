//! The lines of the faults, on their way to a sink.
ghost use Rattle.std.specs.Prelude.{◌≡◌, ◌≤◌, decimal, length, take, IfErr, OnOk, OnErr};
ghost use Rattle.step_model.specs.Ends.{Takes, TakesBeginning, write_failures};
ghost use Rattle.step_model.specs.Faults.{write_fault};
ghost use Rattle.step_model.specs.Listing.{effect_at};
ghost use Rattle.step_model.specs.Pushed.{Pushes};
ghost use Rattle.circuit_walk.specs.Found.{IsFaultOf};
ghost use Rattle.fault_list.specs.FaultLines.{record_text, effect_text, fault_line, fault_lines, coins_line, list_text};
ghost use Rattle.fault_list.specs.private.HeldLines.{PushesSome};

use crate::blocks::ROOM as BLOCK_ROOM;
use crate::qubit_names::QubitNames;
use crate::short_lines::{KeptTexts, LINE, put_line};
use crate::word::{SPAN, write_word};
use circuit_walk::{FaultTaker, FoundFault, Program, take_faults};
use itoa::Buffer;
use pauli_word::Letter;
use std::alloc::Allocator;
use step_model::{Fault, Pieces, Sink};

/// Writes the list of a program's faults. It takes no memory, and fails only where the sink fails; a beginning of the
/// text has then gone out, and the sink is not called again.
pub fn write<'a, A: Allocator + Copy, W: Sink>(
    program: &Program<'a, A>,
    sink: &mut W,
) -> Result<(), Fault>
    ensures all { OnOk result
        (Takes (W.taken sink.old) (W.taken sink.new) (list_text program.now.listing)) }

    ensures fault { IfErr result (λ e. e ≡ write_fault) }
    ensures beginning { OnErr result
        (TakesBeginning (W.taken sink.old) (W.taken sink.new) (list_text program.now.listing)) }

    // One more where the sink failed, otherwise as before.
    ensures count { W.failures sink.new ≡ write_failures result (W.failures sink.old) }
{
    let mut listing = Listing {
        out: Pieces::new(),
        sink,
        desk: Desk {
            lines: [0; ROOM],
            texts: KeptTexts::new(program),
            letters: [Letter::I; SPAN],
        },
        held: 0,
    };
    take_faults(program, &mut listing);
    let Listing {
        mut out,
        sink,
        desk,
        held,
    } = listing;
    out.push(sink, &desk.lines[..held]);
    write_coins(&mut out, sink, program.collapse_count());
    out.finish(sink)
}

/// How long a buffer for lines is: behind the last place where a line begins there is room for one.
const ROOM: usize = LAST_LINE + LINE;

/// Where a short line begins in it at most: lines go out together once they are longer than what `Pieces` holds back, so
/// that they aren't copied there.
const LAST_LINE: usize = 20224;

// What lines are made in: the buffer of short lines, by which the words of long ones go out too, and room for the letters of such a word.
#[derive(Drop)]
struct Desk<'t, 'a> {
    lines: [u8; ROOM],
    texts: KeptTexts<'t, 'a>,
    letters: [Letter; SPAN],
}

/// What takes the faults of a program as lines, of which the last ones are held in a buffer.
#[derive(Drop)]
struct Listing<'s, 't, 'a, W> {
    out: Pieces,
    sink: &'s mut W,
    desk: Desk<'t, 'a>,
    held: usize,
}

impl<'s, 't, 'a, A: Allocator + Copy, W: Sink> FaultTaker<A> for Listing<'s, 't, 'a, W> {
    ghost use Rattle.std.specs.Prelude.{◌≡◌, ◌≤◌, [], take};
    ghost use Rattle.std.specs.List.{flat_map, range_with_len};
    ghost use Rattle.fault_list.specs.FaultLines.{fault_line};
    ghost use Rattle.fault_list.specs.private.HeldLines.{PushesSome};

    // The lines of so many faults were pushed or are held.
    ghost stands = { λ program begun k listing.
        (listing.sink.ghost_name ≡ begun.sink.ghost_name)
        × (listing.held ≤ 20224)
        × (listing.desk.texts.probability.chances ≡ program.chances)
        × PushesSome W.taken W.failures begun.sink.now listing.sink.now begun.out listing.out
        [] (take listing.held listing.desk.lines)
        (flat_map (fault_line program.listing) (range_with_len 0 k)) };

    #[inline(always)]
    fn take(&mut self, program: &Program<'_, A>, fault: FoundFault<'_>) {
        self.held = write_line(
            &mut self.out,
            self.sink,
            &mut self.desk,
            self.held,
            program,
            fault,
        );
    }
}

// Writes a line after those that are held in the buffer, and answers how much is held then. Short lines go out together.
#[inline(always)]
fn write_line<'t, 'a, A: Allocator + Copy, W: Sink>(
    out: &mut Pieces,
    sink: &mut W,
    desk: &mut Desk<'t, 'a>,
    held: usize,
    program: &Program<'_, A>,
    fault: FoundFault<'_>,
) -> usize
    requires held { held ≤ LAST_LINE }
    requires fault { IsFaultOf program.now fault }
    requires texts { desk.old.texts.probability.chances ≡ program.now.chances }
    ensures held { result ≤ LAST_LINE }
    ensures texts { desk.new.texts.probability.chances ≡ desk.old.texts.probability.chances }
    ensures pushed { PushesSome W.taken W.failures sink.old sink.new out.old out.new
        (take held desk.old.lines) (take result desk.new.lines)
        (fault_line program.now.listing fault.entry.number) }
{
    match put_line(
        out,
        sink,
        &mut desk.lines,
        held,
        &mut desk.texts,
        program,
        fault,
    ) {
        Some(end) if end <= LAST_LINE => end,
        Some(end) => {
            out.push(sink, &desk.lines[..end]);
            0
        }
        None => {
            out.push(sink, &desk.lines[..held]);
            write_long_line(out, sink, desk, program, fault);
            0
        }
    }
}

// A line that isn't put in the buffer. It stays apart, since few lines are so long.
#[inline(never)]
fn write_long_line<'t, 'a, A: Allocator + Copy, W: Sink>(
    out: &mut Pieces,
    sink: &mut W,
    desk: &mut Desk<'t, 'a>,
    program: &Program<'_, A>,
    fault: FoundFault<'_>,
)
    requires { IsFaultOf program.now fault }
    ensures texts { desk.new.texts.probability.chances ≡ desk.old.texts.probability.chances }
    ensures pushed { Pushes W.taken W.failures sink.old sink.new out.old out.new
        (fault_line program.now.listing fault.entry.number) }
{
    write_number(out, sink, fault.number);
    out.push(sink, b" ");
    out.push(sink, program.chance_text(fault.chance));
    out.push(sink, b" ");
    write_effect(
        out,
        sink,
        &mut desk.lines,
        &desk.texts.names,
        &mut desk.letters,
        program,
        fault,
    );
    out.push(sink, b"\n");
}

// What a fault does.
fn write_effect<'a, A: Allocator + Copy, W: Sink>(
    out: &mut Pieces,
    sink: &mut W,
    buffer: &mut [u8],
    names: &QubitNames,
    letters: &mut [Letter; SPAN],
    program: &Program<'_, A>,
    fault: FoundFault<'_>,
)
    requires room { BLOCK_ROOM ≤ length buffer.old }
    requires fault { IsFaultOf program.now fault }
    ensures { Pushes W.taken W.failures sink.old sink.new out.old out.new
        (effect_text program.now.listing.qubits
        (effect_at program.now.listing fault.entry.number)) }
{
    program.well_formed();
    match fault.flips {
        Some(r) => write_record(out, sink, r),
        None => {
            write_word(
                out,
                sink,
                buffer,
                names,
                letters,
                program.qubits(),
                fault.letters,
            )
        }
    }
}

fn write_record<W: Sink>(out: &mut Pieces, sink: &mut W, r: u32)
    ensures { Pushes W.taken W.failures sink.old sink.new out.old out.new (record_text r) }
{
    out.push(sink, b"rec[");
    write_number(out, sink, r);
    out.push(sink, b"]");
}

fn write_coins<W: Sink>(out: &mut Pieces, sink: &mut W, collapses: u32)
    ensures { Pushes W.taken W.failures sink.old sink.new out.old out.new (coins_line collapses) }
{
    out.push(sink, b"coins ");
    write_number(out, sink, collapses);
    out.push(sink, b"\n");
}

fn write_number<W: Sink>(out: &mut Pieces, sink: &mut W, number: u32)
    ensures { Pushes W.taken W.failures sink.old sink.new out.old out.new (decimal number) }
{
    out.push(sink, Buffer::new().format(number).as_bytes());
}
