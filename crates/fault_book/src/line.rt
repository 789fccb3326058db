ghost use Rattle.std.specs.Prelude.{◌≡◌, ◌<◌, ◌≤◌, ◌∷◌, [], MatchOption, false, length, true};
ghost use Rattle.std.specs.Option.{unwrap_or};
ghost use Rattle.std.specs.Str.Lines.{strip_carriage_return};
ghost use Rattle.plain_text.specs.Digits.{value_of_digits};
ghost use Rattle.fault_book.specs.FaultText.{is_number_up_to, line_of, line_of_words};
ghost use Rattle.fault_book.specs.declared.line.Line.TheVariants.{Bad};

use plain_text::{digits_len, next_word, number_up_to};

/// Space and tab, which part the words of a line.
const BLANKS: [u8; 2] = [b' ', b'\t'];

/// The greatest channel that can be written, and the greatest value.
const GREATEST: u64 = 4294967295;

/// What a line of a text of faults says.
#[derive(Clone, Copy, Debug, PartialEq, Eq)]
pub(crate) enum Line {
    /// It is blank, or a comment.
    Nothing,
    /// The number of an answer of a channel, and the value that stands in its place.
    Entry {
        channel: u32,
        number: u64,
        value: u32,
    },
    /// It is none of these.
    Bad,
}

/// The line without the CR at its end, where it has one.
pub(crate) fn without_return(line: &[u8]) -> &[u8]
    ensures { result.now ≡ strip_carriage_return line.now }
{
    line.strip_suffix(b"\r").unwrap_or(line)
}

/// What a line says that has no CR at its end.
pub(crate) fn line_of(line: &[u8]) -> Line
    ensures { result ≡ line_of line.now }
{
    if line.starts_with(b"#") {
        return Line::Nothing;
    }
    let Some(channel) = next_word(line, 0, &BLANKS) else {
        return Line::Nothing;
    };
    let Some(number) = next_word(line, channel.end, &BLANKS) else {
        return Line::Bad;
    };
    let Some(value) = next_word(line, number.end, &BLANKS) else {
        return Line::Bad;
    };
    if next_word(line, value.end, &BLANKS).is_some() {
        return Line::Bad;
    }
    let channel = &line[channel.start..channel.end];
    let number = &line[number.start..number.end];
    let value = &line[value.start..value.end];
    entry_in(channel, number, value).unwrap_or(Line::Bad)
}

/// The entry that three words write, where they are numbers up to their limits.
fn entry_in(channel: &[u8], number: &[u8], value: &[u8]) -> Option<Line>
    requires channel { 0 < length channel.now }
    requires number { 0 < length number.now }
    requires value { 0 < length value.now }
    ensures { unwrap_or result Bad ≡ line_of_words (channel.now ∷ number.now ∷ value.now ∷ []) }
{
    let channel = number_in(channel, GREATEST)?;
    let number = number_in(number, u64::MAX)?;
    let value = number_in(value, GREATEST)?;
    Some(Line::Entry {
        channel: channel as u32,
        number,
        value: value as u32,
    })
}

/// The number that a word writes, where it is decimal digits with a value of no more than this.
fn number_in(word: &[u8], most: u64) -> Option<u64>
    requires { 0 < length word.now }
    ensures { MatchOption result (is_number_up_to most word.now ≡ false)
        (λ n. (is_number_up_to most word.now ≡ true) × (n ≡ value_of_digits word.now) × (n ≤ most)) }
{
    if digits_len(word) != word.len() {
        return None;
    }
    let number = number_up_to(word, u128::from(most))?;
    Some(number as u64)
}
