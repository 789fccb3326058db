ghost use Rattle.std.specs.Prelude.{◌≡◌, MatchResult};
ghost use Rattle.plain_text.specs.Digits.{IsInteger, value_of_integer};
ghost use Rattle.number_text.specs.declared.input.InputFault.TheVariants.{NoMemory};
ghost use Rattle.number_text.specs.Input.{AreNumbers, IsFaultOf, input_words, nearest_i128};

use plain_text::{WHITE_SPACE, integer_up_to, is_integer, next_word};
use std::alloc::{AllocFailed, Global};

/// Why a text isn't an input.
#[derive(Clone, Copy, Debug, PartialEq, Eq)]
pub enum InputFault {
    /// The first word that isn't a whole number stands at this place, counted in bytes from 0: its minus, where it has
    /// one, stands there.
    BadNumber(usize),
    /// Memory ran out.
    NoMemory,
}

impl<T: Drop> From<AllocFailed<T>> for InputFault {
    ghost from_gives = { λ _ fault. fault ≡ NoMemory };

    fn from(_failed: AllocFailed<T>) -> Self {
        InputFault::NoMemory
    }
}

/// The numbers of an input: words parted by space, tab, CR and LF, each an optional minus and one decimal digit or
/// more. A number past the ends of i128 is held as the nearer end. BadNumber at the first word that is no such number,
/// NoMemory where memory runs out.
pub fn read_numbers(alloc: Global, text: &[u8]) -> Result<Vec<i128>, InputFault>
    ensures { MatchResult result
        (λ numbers. AreNumbers (input_words text.now) numbers.items)
        (IsFaultOf (input_words text.now)) }
{
    let mut numbers = Vec::new(alloc);
    let mut place = 0;
    while let Some(word) = next_word(text, place, &WHITE_SPACE) {
        let bytes = &text[word.start..word.end];
        if !is_integer(bytes) {
            return Err(InputFault::BadNumber(word.start));
        }
        numbers.push(nearest_integer(bytes))?;
        place = word.end;
    }
    Ok(numbers)
}

/// The integer that a word writes; in the place of one past the ends of i128 the nearer end.
fn nearest_integer(word: &[u8]) -> i128
    requires { IsInteger word.now }
    ensures { result ≡ nearest_i128 (value_of_integer word.now) }
{
    match integer_up_to(word, i128::MAX as u128) {
        Some(value) => value,
        None => {
            if word.starts_with(b"-") {
                i128::MIN
            } else {
                i128::MAX
            }
        }
    }
}
