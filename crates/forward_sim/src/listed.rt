//! A list of numbers.
ghost use Rattle.std.specs.Prelude.{◌≡◌, ◌↔◌, is_some, IfOk, IsTrue, MatchOption};
ghost use Rattle.std.specs.List.{filter_map, list_all, slice_split};
ghost use Rattle.std.specs.List.Sorted.{IsStrictlyIncreasing};
ghost use Rattle.forward_sim.specs.Listed.{IsListOf, IsNoList};
ghost use Rattle.forward_sim.specs.private.Numbers.{is_comma, number_below};

use std::alloc::{AllocError, Allocator};

/// The numbers that a text lists, ascending: decimal numbers joined by commas, or nothing. None where the text is no such
/// list, names a number twice, or names one that is below no count of 64 bits.
pub fn listed_numbers<A: Allocator + Copy>(
    alloc: A,
    text: &[u8],
) -> Result<Option<Vec<usize, A>>, AllocError>
    ensures { IfOk result (λ listed. MatchOption listed (IsNoList text.now)
        (λ numbers. IsListOf text.now numbers.items)) }
{
    if text.is_empty() {
        return Ok(Some(Vec::new(alloc)));
    }
    if !are_numbers(text) {
        return Ok(None);
    }
    let mut numbers = numbers_in_turn(alloc, text)?;
    numbers.sort_unstable();
    if !rise(&numbers) {
        return Ok(None);
    }
    Ok(Some(numbers))
}

/// The number that a piece of a list writes, where it is one and below a count. While it is read it stays at the count
/// once it reaches that, however many digits follow.
fn number_below(count: usize, piece: &[u8]) -> Option<usize>
    ensures { result ≡ number_below count piece.now }
{
    let mut n = 0usize;
    for digit in piece {
        if !digit.is_ascii_digit() {
            return None;
        }
        n = n
            .saturating_mul(10)
            .saturating_add((*digit - b'0') as usize)
            .min(count);
    }
    (!piece.is_empty() && n < count).then_some(n)
}

/// Whether each piece between commas is a number below 2^64 - 1.
fn are_numbers(text: &[u8]) -> bool
    ensures { result ≡ list_all (λ piece. is_some (number_below usize.MAX piece))
        (slice_split is_comma text.now) }
{
    text.split(|b| *b == b',')
        .all(|piece| number_below(usize::MAX, piece).is_some())
}

/// The numbers of the pieces between commas, in their order. Room for as many as there are pieces is asked for once: without it
/// `extend` would ask again where a growth is refused.
fn numbers_in_turn<A: Allocator + Copy>(alloc: A, text: &[u8]) -> Result<Vec<usize, A>, AllocError>
    ensures { IfOk result (λ numbers. numbers.items
        ≡ filter_map (number_below usize.MAX) (slice_split is_comma text.now)) }
{
    let pieces = text.split(|b| *b == b',').count();
    let mut numbers = Vec::with_capacity(alloc, pieces)?;
    numbers.extend(
        text.split(|b| *b == b',')
            .filter_map(|piece| number_below(usize::MAX, piece)),
    )?;
    Ok(numbers)
}

/// Whether each number is below the next.
fn rise(numbers: &[usize]) -> bool
    ensures { IsTrue result ↔ IsStrictlyIncreasing numbers.now }
{
    numbers.is_sorted_by(|a, b| a < b)
}
