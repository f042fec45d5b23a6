//! Numbers and words that are drawn from a generator.
use rand_core::utils::NextWord;
use rand_pcg::Pcg64;
use std::alloc::{AllocError, Global};

/// A number below a count; 0 where that is 0.
pub(super) fn below(draws: &mut Pcg64, count: u64) -> u64 {
    draws.next_word().checked_rem(count).unwrap_or(0)
}

/// The word at a place of a list; none where the list is shorter.
pub(super) fn word_at(list: &str, place: u64) -> &str {
    let mut before = 0;
    for word in list.split_whitespace() {
        if before == place {
            return word;
        }
        before = before.saturating_add(1);
    }
    ""
}

/// One of the words of a list.
pub(super) fn one_of<'l>(draws: &mut Pcg64, list: &'l str) -> &'l str {
    let count = list.split_whitespace().count() as u64;
    word_at(list, below(draws, count))
}

/// What inverts a target, at one time in four.
pub(super) fn inversion(draws: &mut Pcg64) -> &'static str {
    if below(draws, 4) == 0 { "!" } else { "" }
}

/// Puts words at the end of a text.
pub(super) fn put(text: &mut String<Global>, words: &[&str]) -> Result<(), AllocError> {
    for word in words {
        text.push_str(word)?;
    }
    Ok(())
}
