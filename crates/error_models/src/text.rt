//! The text of an error model, on its way to a sink.
ghost use Rattle.std.specs.Prelude.{◌≡◌, ◌<◌, ◌≤◌, ◌-◌, decimal, drop, length, take, IfErr, OnOk, OnErr};
ghost use Rattle.std.specs.List.{flat_map};
ghost use Rattle.std.specs.Fmt.{signed_decimal};
ghost use Rattle.error_models.specs.ModelText.{targets_text, line_text, more_coordinates_text, coordinates_text, detector_text, observable_text, lines_text, detectors_text, observables_text, model_text};
ghost use Rattle.step_model.specs.Pushed.{Pushes};
ghost use Rattle.step_model.specs.Ends.{Takes, TakesBeginning, write_failures};
ghost use Rattle.step_model.specs.Faults.{write_fault};

use crate::Model;
use crate::line_runs::{end_of_short, lines_before};
use crate::short_detectors::{DETECTOR_ROOM, SHORT_COORDINATES, detector_before};
use crate::short_lines::{ROOM, SHORT_TARGETS, targets_before};
use itoa::Buffer;
use std::alloc::Allocator;
use step_model::{Fault, Pieces, Sink};

/// Writes the text of a model. It takes no memory, and fails only where the sink fails; a beginning of the text has
/// then gone out, and the sink is not called again.
pub fn write<'a, A: Allocator + Copy, W: Sink>(
    model: &Model<'a, A>,
    sink: &mut W,
) -> Result<(), Fault>
    ensures all { OnOk result (Takes (W.taken sink.old) (W.taken sink.new) (model_text model.now)) }

    ensures fault { IfErr result (λ e. e ≡ write_fault) }
    ensures beginning { OnErr result
        (TakesBeginning (W.taken sink.old) (W.taken sink.new) (model_text model.now)) }

    // One more where the sink failed, otherwise as before.
    ensures count { W.failures sink.new ≡ write_failures result (W.failures sink.old) }
{
    let mut out = Pieces::new();
    push_model(&mut out, sink, model);
    out.finish(sink)
}

fn push_model<'a, A: Allocator + Copy, W: Sink>(
    out: &mut Pieces,
    sink: &mut W,
    model: &Model<'a, A>,
)
    ensures { Pushes W.taken W.failures sink.old sink.new out.old out.new (model_text model.now) }
{
    write_lines(out, sink, model);
    write_detectors(out, sink, model);
    write_observables(out, sink, model);
}

fn write_lines<'a, A: Allocator + Copy, W: Sink>(
    out: &mut Pieces,
    sink: &mut W,
    model: &Model<'a, A>,
)
    ensures { Pushes W.taken W.failures sink.old sink.new out.old out.new (lines_text model.now) }
{
    let mut buffer = [0; ROOM];
    let count = model.line_count();
    let mut line = 0;
    while line < count {
        line = write_some(out, sink, &mut buffer, model, count, line);
    }
}

// Writes some lines from one on, and answers which is next. Most are short, and go out many at a time.
fn write_some<'a, A: Allocator + Copy, W: Sink>(
    out: &mut Pieces,
    sink: &mut W,
    buffer: &mut [u8; ROOM],
    model: &Model<'a, A>,
    count: usize,
    line: usize,
) -> usize
    requires count { count ≡ length model.now.lines }
    requires line { line < count }
    ensures some { line < result }
    ensures within { result ≤ length model.now.lines }
    ensures pushed { Pushes W.taken W.failures sink.old sink.new out.old out.new
        (flat_map (line_text model.now.detectors)
        (take (result - line) (drop line model.now.lines))) }
{
    let next = end_of_short(model, line);
    if line < next {
        let start = lines_before(buffer, model, line, next);
        out.push(sink, &buffer[start..]);
        return next;
    }
    write_long_line(
        out,
        sink,
        buffer,
        model.detector_count(),
        model.text(line),
        model.targets(line),
    );
    line + 1
}

fn write_long_line<W: Sink>(
    out: &mut Pieces,
    sink: &mut W,
    buffer: &mut [u8; ROOM],
    detectors: usize,
    probability: &[u8],
    targets: &[u32],
)
    ensures { Pushes W.taken W.failures sink.old sink.new out.old out.new
        (line_text detectors (record { text = probability.now; targets = targets.now })) }
{
    out.push(sink, b"error(");
    out.push(sink, probability);
    out.push(sink, b")");
    write_targets(out, sink, buffer, detectors, targets);
    out.push(sink, b"\n");
}

// As many targets at a time as the buffer holds.
fn write_targets<W: Sink>(
    out: &mut Pieces,
    sink: &mut W,
    buffer: &mut [u8; ROOM],
    detectors: usize,
    targets: &[u32],
)
    ensures { Pushes W.taken W.failures sink.old sink.new out.old out.new
        (targets_text detectors targets.now) }
{
    let mut done = 0;
    while done < targets.len() {
        let next = done + SHORT_TARGETS.min(targets.len() - done);
        let start = targets_before(buffer, ROOM, detectors, &targets[done..next]);
        out.push(sink, &buffer[start..]);
        done = next;
    }
}

fn write_detectors<'a, A: Allocator + Copy, W: Sink>(
    out: &mut Pieces,
    sink: &mut W,
    model: &Model<'a, A>,
)
    ensures { Pushes W.taken W.failures sink.old sink.new out.old out.new
        (detectors_text model.now) }
{
    for detector in 0..model.detector_count() {
        push_detector(out, sink, detector, model.coordinates(detector));
    }
}

/// Pushes the line of a detector. Most have few coordinates, and their lines go out as one text.
pub fn push_detector<W: Sink>(out: &mut Pieces, sink: &mut W, detector: usize, coordinates: &[i64])
    ensures { Pushes W.taken W.failures sink.old sink.new out.old out.new
        (detector_text detector coordinates.now) }
{
    if coordinates.len() <= SHORT_COORDINATES && detector <= u32::MAX as usize {
        let mut buffer = [0; DETECTOR_ROOM];
        let start = detector_before(&mut buffer, detector as u32, coordinates);
        out.push(sink, &buffer[start..]);
    } else {
        write_long_detector(out, sink, detector, coordinates);
    }
}

fn write_long_detector<W: Sink>(
    out: &mut Pieces,
    sink: &mut W,
    detector: usize,
    coordinates: &[i64],
)
    ensures { Pushes W.taken W.failures sink.old sink.new out.old out.new
        (detector_text detector coordinates.now) }
{
    out.push(sink, b"detector");
    write_coordinates(out, sink, coordinates);
    out.push(sink, b" D");
    write_number(out, sink, detector);
    out.push(sink, b"\n");
}

fn write_coordinates<W: Sink>(out: &mut Pieces, sink: &mut W, coordinates: &[i64])
    ensures { Pushes W.taken W.failures sink.old sink.new out.old out.new
        (coordinates_text coordinates.now) }
{
    if let [first, more @ ..] = coordinates {
        out.push(sink, b"(");
        write_whole(out, sink, *first);
        write_more_coordinates(out, sink, more);
        out.push(sink, b")");
    }
}

fn write_more_coordinates<W: Sink>(out: &mut Pieces, sink: &mut W, coordinates: &[i64])
    ensures { Pushes W.taken W.failures sink.old sink.new out.old out.new
        (more_coordinates_text coordinates.now) }
{
    for coordinate in coordinates {
        out.push(sink, b", ");
        write_whole(out, sink, *coordinate);
    }
}

fn write_observables<'a, A: Allocator + Copy, W: Sink>(
    out: &mut Pieces,
    sink: &mut W,
    model: &Model<'a, A>,
)
    ensures { Pushes W.taken W.failures sink.old sink.new out.old out.new
        (observables_text model.now) }
{
    for observable in 0..model.observable_count() {
        push_observable(out, sink, observable);
    }
}

/// Pushes the line of an observable.
pub fn push_observable<W: Sink>(out: &mut Pieces, sink: &mut W, observable: usize)
    ensures { Pushes W.taken W.failures sink.old sink.new out.old out.new
        (observable_text observable) }
{
    out.push(sink, b"logical_observable L");
    write_number(out, sink, observable);
    out.push(sink, b"\n");
}

fn write_number<W: Sink>(out: &mut Pieces, sink: &mut W, number: usize)
    ensures { Pushes W.taken W.failures sink.old sink.new out.old out.new (decimal number) }
{
    out.push(sink, Buffer::new().format(number).as_bytes());
}

fn write_whole<W: Sink>(out: &mut Pieces, sink: &mut W, number: i64)
    ensures { Pushes W.taken W.failures sink.old sink.new out.old out.new (signed_decimal number) }
{
    out.push(sink, Buffer::new().format(number).as_bytes());
}
