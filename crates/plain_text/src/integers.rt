ghost use Rattle.plain_text.specs.Digits.{IsInteger, is_negative, unsigned_part, value_of_digits, value_of_integer};
ghost use Rattle.std.specs.Prelude.{◌<◌, ◌≡◌, ◌≤◌, ◌↔◌, ◌^◌, IsTrue, MatchOption};

use crate::digits::{digits_len, number_up_to};

/// What stands after an optional minus.
pub fn unsigned_part(text: &[u8]) -> &[u8]
    ensures { result.now ≡ unsigned_part text.now }
{
    text.strip_prefix(b"-").unwrap_or(text)
}

/// Whether a text is an optional minus and then one decimal digit or more, and nothing else.
pub fn is_integer(text: &[u8]) -> bool
    ensures { IsTrue result ↔ IsInteger text.now }
{
    let digits = unsigned_part(text);
    !digits.is_empty() && digits_len(digits) == digits.len()
}

/// The integer that an optional minus and decimal digits write, where it is at most the limit without its minus.
/// One past the limit is None, however long the digits are; leading zeros count for nothing.
pub fn integer_up_to(text: &[u8], limit: u128) -> Option<i128>
    requires integer { IsInteger text.now }
    requires limit { limit < 2 ^ 127 }
    ensures { MatchOption result (limit < value_of_digits (unsigned_part text.now))
        (λ z. (z ≡ value_of_integer text.now) × (value_of_digits (unsigned_part text.now) ≤ limit)) }
{
    let magnitude = number_up_to(unsigned_part(text), limit)? as i128;
    Some(if text.starts_with(b"-") {
        -magnitude
    } else {
        magnitude
    })
}
