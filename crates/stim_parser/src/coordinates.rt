ghost use Rattle.std.specs.Prelude.{◌≡◌, None, Some, option_map, MatchBool};
ghost use Rattle.stim_parser.specs.Arguments.{arguments_in};
ghost use Rattle.stim_parser.specs.Coordinates.{coordinates_in, first_number};

use crate::arguments::{MOST_ARGUMENTS, first_argument};
use crate::digits::number_of;
use crate::numbers::GREATEST_COORDINATE;
use crate::whole_numbers::{are_beyond, put_whole_numbers};
use arrayvec::ArrayVec;

/// Puts all arguments in the text of some parentheses, as coordinates, in place of what was there. Answers whether they are at
/// most 16 whole numbers within the limit.
pub fn put_coordinates(found: &mut ArrayVec<i64, MOST_ARGUMENTS>, text: &[u8]) -> bool
    ensures { MatchBool result
        (coordinates_in (arguments_in text.now) ≡ Some found.new.items)
        (coordinates_in (arguments_in text.now) ≡ None) }
{
    if !put_whole_numbers(found, text) {
        return false;
    }
    !are_beyond(GREATEST_COORDINATE, found.as_slice())
}

/// All arguments in the text of some parentheses as coordinates, where they are at most 16 whole numbers within the limit.
pub fn read_coordinates(text: &[u8]) -> Option<ArrayVec<i64, MOST_ARGUMENTS>>
    ensures { option_map (λ found. found.items) result ≡ coordinates_in (arguments_in text.now) }
{
    let mut found = ArrayVec::new();
    if put_coordinates(&mut found, text) {
        Some(found)
    } else {
        None
    }
}

/// The number that the first argument in the text of some parentheses writes, where it is digits. All numbers from
/// 10^18 on are taken as one.
pub fn first_number(text: &[u8]) -> Option<u64>
    ensures { result ≡ first_number (arguments_in text.now) }
{
    number_of(first_argument(text)?)
}
