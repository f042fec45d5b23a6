//! The digits of numbers that mostly count up.
ghost use Rattle.std.specs.Prelude.{◌≡◌, ◌≤◌, ◌+◌, ◌++◌, decimal, length, take};
ghost use Rattle.fault_list.specs.private.KeptTexts.{HasDigits, IsCounted};

use crate::put::{put_byte, put_first};
use itoa::write_digits;

/// How many bytes are kept for the digits. A number of 32 bits has fewer; so many are copied at once.
pub(crate) const DIGITS: usize = 16;

/// The digits of a number, kept for the next one: mostly that is one more, and only its last digit changes. So that stands apart: a
/// copy of bytes of which one was just written makes the processor wait.
#[derive(Drop)]
pub(crate) struct Counter {
    number: u64,
    // those before the last one, and how many they are
    digits: [u8; DIGITS],
    before: usize,
    last: u8,
    ghost counted: { IsCounted number before last digits },
}

impl Counter {
    pub(crate) fn new() -> Self
        ensures { result.number ≡ 0 }
    {
        Counter {
            number: 0,
            digits: [0; DIGITS],
            before: 0,
            last: b'0',
        }
    }

    /// Puts a number at `at`, and answers where it ends.
    #[inline(always)]
    pub(crate) fn put(&mut self, buffer: &mut [u8], at: usize, number: u32) -> usize
        requires room { at + DIGITS ≤ length buffer.old }
        ensures from { at ≤ result }
        ensures within { result ≤ at + 10 }
        ensures written { take result buffer.new ≡ take at buffer.old ++ decimal number }
    {
        self.turn_to(number);
        let end = put_first(buffer, at, self.digits, self.before);
        let end = put_byte(buffer, end, self.last);
        self.count_up();
        end
    }

    #[inline(always)]
    fn turn_to(&mut self, number: u32)
        ensures { self.new.number ≡ number }
    {
        if self.number != number as u64 {
            self.make(number);
        }
    }

    #[inline(never)]
    fn make(&mut self, number: u32)
        ensures { self.new.number ≡ number }
    {
        let (digits, len) = digits_of(number);
        self.number = number as u64;
        self.digits = digits;
        self.before = len - 1;
        self.last = digits[len - 1];
    }

    // Turns to the next number, where its digits are found easily.
    #[inline(always)]
    fn count_up(&mut self)
        requires { self.old.number ≤ u32.MAX }
    {
        if self.last < b'9' {
            self.number += 1;
            self.last += 1;
        } else if self.before > 0 && self.digits[self.before - 1] < b'9' {
            self.number += 1;
            self.digits[self.before - 1] += 1;
            self.last = b'0';
        }
    }
}

/// The digits of a number at the start of so many bytes, and how many they are.
#[inline(never)]
pub(crate) fn digits_of(number: u32) -> ([u8; DIGITS], usize)
    ensures digits { HasDigits number result.1 result.0 }
    ensures counted { result.1 ≡ length (decimal number) }
{
    let mut text = [0; DIGITS];
    let start = write_digits(number as u64, &mut text, DIGITS);
    let len = DIGITS - start;
    let mut digits = [0; DIGITS];
    digits[..len].copy_from_slice(&text[start..]);
    (digits, len)
}
