ghost use Rattle.std.specs.Prelude.{◌≡◌, ◌+◌, ◌<◌, ◌≤◌, ◌^◌, true, length};
ghost use Rattle.std.specs.Char.{is_ascii_digit};
ghost use Rattle.std.specs.List.{list_all};
ghost use Rattle.stim_parser.specs.private.Significant.{next_digit, more_digits, nothing_read, IsWithin};

/// What is known of digits, from the first that isn't a zero on.
#[derive(Clone, Copy)]
pub(crate) struct Significant {
    /// How many digits there are.
    pub length: usize,
    /// How many of them are zeros at the end.
    pub zeros: usize,
    /// The number that the digits before these zeros write, up to 18 of them.
    pub number: u64,
}

/// What is known before the first digit.
pub(crate) fn nothing_read() -> Significant
    ensures value { result ≡ nothing_read }
    ensures within { IsWithin result }
{
    Significant {
        length: 0,
        zeros: 0,
        number: 0,
    }
}

/// What is known after one more digit.
fn next_digit(read: Significant, digit: u8) -> Significant
    requires digit { digit < 58 }
    requires length { read.length + 1 < 2 ^ 64 }
    requires within { IsWithin read }
    ensures value { result ≡ next_digit read digit }
    ensures within { IsWithin result }
    ensures length { result.length ≤ read.length + 1 }
{
    if digit == b'0' {
        if read.length == 0 {
            return read;
        }
        return Significant {
            length: read.length + 1,
            zeros: read.zeros + 1,
            number: read.number,
        };
    }
    let mut number = read.number;
    if read.length < 18 {
        number = read.number * 10u64.pow(read.zeros as u32 + 1) + digit.saturating_sub(b'0') as u64;
    }
    Significant {
        length: read.length + 1,
        zeros: 0,
        number,
    }
}

/// What is known after more digits.
pub(crate) fn more_digits(read: Significant, digits: &[u8]) -> Significant
    requires digits { list_all is_ascii_digit digits.now ≡ true }
    requires length { read.length + length digits.now < 2 ^ 64 }
    requires within { IsWithin read }
    ensures value { result ≡ more_digits read digits.now }
    ensures within { IsWithin result }
    ensures length { result.length ≤ read.length + length digits.now }
{
    let mut read = read;
    for digit in digits {
        read = next_digit(read, *digit);
    }
    read
}
