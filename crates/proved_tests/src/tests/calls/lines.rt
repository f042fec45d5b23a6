use step_model::Fault;
use stim_lexer::{Braces, Lexer, Line};

const TEXT: &[u8] = b"# note\nH[x#{y] 0 # z\n\t\r\n REPEAT 2 {\nX_ERROR( 0.1 ) 3\nM(0.1";

/// Number, name, arguments, targets, whether it stays open, and braces of a line.
type Cut = (
    u64,
    &'static [u8],
    &'static [u8],
    &'static [u8],
    bool,
    Braces,
);

/// The lines of the text.
const CUT: &[Cut] = &[
    (2, b"H", b"", b" 0 ", false, Braces::NoBrace),
    (4, b"REPEAT", b"", b" 2 ", false, Braces::OpeningLast),
    (5, b"X_ERROR", b" 0.1 ", b" 3", false, Braces::NoBrace),
    (6, b"M", b"0.1", b"", true, Braces::NoBrace),
];

fn is_cut(line: Line<'_>, row: &Cut) -> bool {
    let (number, name, arguments, targets, stays_open, braces) = *row;
    (line.number == number)
        & (line.name == name)
        & (line.arguments == arguments)
        & (line.targets == targets)
        & (line.stays_open == stays_open)
        & (line.braces == braces)
}

fn next_is_cut(lexer: &mut Lexer<'_>, row: &Cut) -> Result<bool, Fault> {
    match lexer.next_line()? {
        Some(line) => Ok(is_cut(line, row)),
        None => Ok(false),
    }
}

fn are_cut(lexer: &mut Lexer<'_>, rows: &[Cut]) -> Result<bool, Fault> {
    for row in rows {
        if !next_is_cut(lexer, row)? {
            return Ok(false);
        }
    }
    Ok(lexer.next_line()?.is_none())
}

#[test]
fn lines_are_cut(rt: HostRuntime) {
    assert!(rt; matches!(are_cut(&mut Lexer::new(TEXT), CUT), Ok(true)));
}

const BRACES: &[(&[u8], Braces)] = &[
    (b"}", Braces::ClosingAlone),
    (b"REPEAT 2 {}", Braces::Misplaced),
    (b"REPEAT 2 { 3", Braces::Misplaced),
    (b"}[x]", Braces::Misplaced),
    (b"X_ERROR({) 0", Braces::Misplaced),
    (b"} 0", Braces::Misplaced),
];

fn first_has_braces(text: &[u8], braces: Braces) -> Result<bool, Fault> {
    match Lexer::new(text).next_line()? {
        Some(line) => Ok(line.braces == braces),
        None => Ok(false),
    }
}

#[test]
fn braces_are_told_apart(rt: HostRuntime) {
    for (text, braces) in BRACES {
        assert!(rt;
            matches!(first_has_braces(text, *braces), Ok(true)),
            "in {text:?}"
        );
    }
}
