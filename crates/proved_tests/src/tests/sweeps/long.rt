//! Texts that are longer than a block of memory: of error lines that are held, and of a source that is read.
ghost use Rattle.std.specs.Prelude.{◌≡◌, ◌<◌, length};

use super::growths::{Memory, Ration};
use error_models::LinesText;
use std::alloc::{AllocError, Global};
use step_model::{Fault, MemorySink, Pieces, read_all};
use test_support::SlowSource;

/// Puts a line of 20 bytes, and two of 68 with many targets, which go in parts.
fn put_three<'m>(lines: &mut LinesText<'static, Memory<'m>>, text: usize) -> Result<(), AllocError>
    requires text { text < length lines.old.texts }
    requires targets { lines.old.targets ≡ 3 }
    ensures texts { lines.new.texts ≡ lines.old.texts }
    ensures targets { lines.new.targets ≡ lines.old.targets }
{
    lines.put_line(text, &[2])?;
    lines.put_line(text, &[2; 17])?;
    lines.put_line_reversed(text, &[2; 17])
}

/// So many lines, of two detectors and an observable, that they fill two blocks of 64 KiB, and begin a third.
fn many_lines(memory: Memory<'_>) -> Result<LinesText<'static, Memory<'_>>, AllocError> {
    let mut lines = LinesText::new(memory, 2, 3)?;
    let text = lines.keep_text(b"1.000e-12")?;
    for turn in 0..1_200u32 {
        put_three(&mut lines, text)?;
    }
    Ok(lines)
}

/// How long the text of lines is, which are taken out.
fn length_of<'m>(lines: &mut LinesText<'_, Memory<'m>>, alloc: Global) -> Result<usize, Fault> {
    let mut sink = MemorySink::new(alloc);
    let mut out = Pieces::new();
    lines.take_text().push_to(&mut out, &mut sink);
    out.finish(&mut sink)?;
    Ok(sink.bytes().len())
}

pub(super) fn lines_are_right(ration: Ration<'_>) -> Result<bool, Fault> {
    match many_lines(ration.begin()) {
        Ok(mut lines) => Ok(length_of(&mut lines, ration.alloc)? == 187_200),
        Err(_) => Err(Fault::MEMORY),
    }
}

/// Where reading so many bytes failed: the fault where the bytes that were handed out and those that are left are all.
fn rest_is_left(
    alloc: Global,
    source: &mut SlowSource<'_>,
    length: usize,
    fault: Fault,
) -> Result<bool, Fault> {
    let handed_out = source.calls() as usize;
    let rest = read_all(alloc, source)?;
    if handed_out.checked_add(rest.len()) == Some(length) {
        Err(fault)
    } else {
        Ok(false)
    }
}

const BYTES: [u8; 9_000] = [b'x'; 9_000];

/// A source loses no byte where there is no room.
pub(super) fn source_is_right(ration: Ration<'_>) -> Result<bool, Fault> {
    let mut source = SlowSource::new(&BYTES, 0);
    match read_all(ration.begin(), &mut source) {
        Ok(bytes) => Ok(bytes.as_slice() == BYTES.as_slice()),
        Err(fault) => rest_is_left(ration.alloc, &mut source, BYTES.len(), fault),
    }
}
