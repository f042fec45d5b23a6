//! The lines of a text, one after another and cut into slices of it: name, arguments, targets and braces (`Lexer`, which
//! refuses only bytes that may not stand in a text, and takes no memory). And texts of lines and blocks, of circuits or of
//! error models: a line is an instruction, or opens or closes a block, as the judge of its format says (`Builder`, `Items`).
#![tactic(auto)]

mod blocks;
mod builder;
mod items;
mod lexer;
mod line;
mod line_targets;
mod said;
mod scan;

pub use blocks::{LEVELS, OpenBlock};
pub use builder::Builder;
pub use items::{Instruction, Item, Items};
pub use lexer::{Lexer, cut_line};
pub use line::{Braces, Line};
pub use line_targets::LineTargets;
pub use said::Said;
pub use scan::{after_blanks, cut_at, cut_near, first_line, is_blank};
