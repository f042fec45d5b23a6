//! What rows of tables have that are written as texts.

/// The three parts of a row, with ` = ` between them.
pub(super) fn parts_of(row: &str) -> Option<(&str, &str, &str)> {
    let (first, rest) = row.split_once(" = ")?;
    let (second, third) = rest.split_once(" = ")?;
    Some((first, second, third))
}

/// Whether these truth values are written as these digits.
pub(super) fn are_digits(values: &[bool], digits: &str) -> bool {
    let digits = digits.as_bytes();
    for (number, value) in values.iter().enumerate() {
        let digit = if *value { b'1' } else { b'0' };
        if digits.get(number).copied() != Some(digit) {
            return false;
        }
    }
    values.len() == digits.len()
}

/// Whether a pair of coin lists is as many zeros, and these coins.
pub(super) fn are_coins((zeros, second): (&[bool], &[bool]), coins: &str) -> bool {
    zeros.len() == second.len() && zeros.iter().all(|coin| !*coin) && are_digits(second, coins)
}
