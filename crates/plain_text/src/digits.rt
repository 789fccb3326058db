ghost use Rattle.plain_text.specs.Digits.{IsWholeNumber, digit_prefix, value_of_digits};
ghost use Rattle.std.specs.Prelude.{◌<◌, ◌≡◌, ◌≤◌, MatchOption, length};

/// How many ASCII digits stand at the start of a text.
pub fn digits_len(text: &[u8]) -> usize
    ensures { result ≡ length (digit_prefix text.now) }
{
    text.iter().take_while(|byte| byte.is_ascii_digit()).count()
}

/// The value of decimal digits, where it is at most the limit. A value past the limit is None, however long
/// the digits are; leading zeros count for nothing.
#[tactic(auto, using(crate::proofs::DigitValues::digit_in, crate::proofs::DigitValues::value_more, crate::proofs::DigitValues::value_prefix))]
pub fn number_up_to(digits: &[u8], limit: u128) -> Option<u128>
    requires { IsWholeNumber digits.now }
    ensures { MatchOption result (limit < value_of_digits digits.now)
        (λ n. (n ≡ value_of_digits digits.now) × (n ≤ limit)) }
{
    let mut value: u128 = 0;
    for digit in digits {
        let unit = u128::from(*digit - b'0');
        value = value.checked_mul(10)?.checked_add(unit)?;
    }
    (value <= limit).then_some(value)
}
