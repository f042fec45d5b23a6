ghost use Rattle.std.specs.Prelude.{◌≡◌, ◌+◌, ◌<◌, ◌^◌, ◌∷◌, [], length, false, true, IfErr, IfSome, Err, MatchOption, MatchResult, None};
ghost use Rattle.std.specs.List.{list_any};
ghost use Rattle.step_model.specs.declared.fault.Cause.TheVariants as cause;
ghost use Rattle.stim_lexer.specs.Bytes.{after_blanks};
ghost use Rattle.stim_lexer.specs.Cut.{cut_of, has_bad_byte};
ghost use Rattle.stim_lexer.specs.Lexing.{after_silent, next_found, after_next, answered, cut_in};
ghost use Rattle.stim_lexer.specs.Lines.{content_of, lines_of, says_nothing};
ghost use Rattle.stim_lexer.specs.private.Special.{is_special, IsPlain};

use crate::line::{Line, Scanned, content_of, has_bad_byte, is_closing, line_of, parts_of};
use crate::scan::{after_blanks, any_special, first_line, judge_line};
use std::marker::Model;
use step_model::{Cause, Fault};

/// Reads a text line by line. Its value is the lines that are left, and how many came before them.
#[derive(Drop)]
pub struct Lexer<'a> {
    rest: &'a [u8],
    read: u64,
    // How many bytes in front of the rest are known to be plain.
    plain: usize,
}

/// A line that says something, its content up to a comment, and what follows it in the text.
#[derive(Clone, Copy)]
struct Found<'a> {
    scanned: Scanned<'a>,
    content: &'a [u8],
    after: &'a [u8],
    // How many bytes in front of that are known to be plain.
    plain: usize,
}

impl<'a> Model for Lexer<'a> {
    ghost use Rattle.std.specs.Prelude.{◌+◌, ◌<◌, ◌^◌, length};
    ghost use Rattle.stim_lexer.specs.Lexing.{Unread};
    ghost use Rattle.stim_lexer.specs.Lines.{lines_of};
    ghost use Rattle.stim_lexer.specs.private.Special.{IsPlain};

    ghost Value = { Unread };

    ghost view = { λ l. record { read = l.read; lines = lines_of l.rest.now } };

    ghost invariant = { λ l. (l.read + length l.rest.now < 2 ^ 64) × IsPlain l.plain l.rest.now };
}

impl<'a> Lexer<'a> {
    /// Begins with the first line of a text.
    pub fn new(text: &'a [u8]) -> Self
        ensures { result ≡ record { read = 0; lines = lines_of text.now } }
    {
        Lexer {
            rest: text,
            read: 0,
            plain: 0,
        }
    }

    /// The next line that says something. A line with a byte that is neither a blank nor printable, outside tag and
    /// comment, is refused, and stays the next one.
    pub fn next_line(&mut self) -> Result<Option<Line<'a>>, Fault>
        ensures line { answered result ≡ next_found self.old }
        ensures rest { self.new ≡ after_next self.old }
        ensures again { IfErr result (λ fault. next_found self.new ≡ Err fault) }
    {
        let Some(found) = self.pass_silent() else {
            return Ok(None);
        };
        let line = found.scanned.line;
        let parts = parts_of(found.scanned);
        let number = self.read + 1;
        if has_bad_byte(line, parts) {
            return Err(Fault {
                cause: Cause::Byte,
                line: number,
            });
        }
        self.rest = found.after;
        self.plain = found.plain;
        self.read = number;
        let closes = is_closing(found.content);
        Ok(Some(line_of(number, line, closes, parts)))
    }

    /// Passes over lines that say nothing, up to the first one that does.
    fn pass_silent(&mut self) -> Option<Found<'a>>
        ensures rest { self.new ≡ after_silent self.old.read self.old.lines }
        ensures lines { IfSome result (λ found. self.new.lines
            ≡ found.scanned.line.now ∷ lines_of found.after.now) }
        ensures content { IfSome result (λ found. found.content.now
            ≡ content_of found.scanned.line.now) }
        ensures start { IfSome result (λ found. found.scanned.start.now
            ≡ after_blanks found.scanned.line.now) }
        ensures special { IfSome result (λ found. found.scanned.special
            ≡ list_any is_special found.scanned.line.now) }
        ensures room { IfSome result (λ found. self.new.read + 1 + length found.after.now
            < 2 ^ 64) }
        ensures plain { IfSome result (λ found. IsPlain found.plain found.after.now) }
        ensures none { result ≡ None → self.new.lines ≡ [] }
    {
        while !self.rest.is_empty() {
            let (line, after) = first_line(self.rest);
            let (special, plain) = judge_line(self.plain, self.rest, line, after);
            let scanned = Scanned {
                line,
                start: after_blanks(line),
                special,
            };
            let content = content_of(scanned);
            if !content.is_empty() {
                return Some(Found {
                    scanned,
                    content,
                    after,
                    plain,
                });
            }
            self.rest = after;
            self.plain = plain;
            self.read += 1;
        }
        None
    }
}

/// The one line of this number, cut; none where it says nothing. A byte is refused as by `Lexer`.
pub fn cut_line(number: u64, line: &[u8]) -> Result<Option<Line<'_>>, Fault>
    ensures { MatchResult result
        (λ found. MatchOption found (says_nothing line.now ≡ true)
        (λ cut. (says_nothing line.now ≡ false) × (has_bad_byte line.now ≡ false)
        × (cut.number ≡ number) × (cut_in cut ≡ cut_of line.now)))
        (λ fault. (says_nothing line.now ≡ false) × (has_bad_byte line.now ≡ true)
        × (fault ≡ record { cause = cause.Byte; line = number })) }
{
    let scanned = Scanned {
        line,
        start: after_blanks(line),
        special: any_special(line),
    };
    let content = content_of(scanned);
    if content.is_empty() {
        return Ok(None);
    }
    let parts = parts_of(scanned);
    if has_bad_byte(line, parts) {
        return Err(Fault {
            cause: Cause::Byte,
            line: number,
        });
    }
    let closes = is_closing(content);
    Ok(Some(line_of(number, line, closes, parts)))
}
