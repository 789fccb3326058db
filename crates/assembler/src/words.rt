ghost use Rattle.std.specs.Prelude.{◌≡◌, ◌≤◌, ◌↔◌, ◌==◌, not, ◌∷◌, [], IsTrue, MatchOption, length};
ghost use Rattle.std.specs.List.{list_all, prefix_len};
ghost use Rattle.assembler.specs.Fields.{a_register, an_integer, a_natural};
ghost use Rattle.assembler.specs.Words.{is_name, is_name_byte, words_in};
ghost use Rattle.assembler.specs.Readers.{WritesNo, WritesOnly};

use plain_text::{digits_len, is_integer, next_word, number_up_to, unsigned_part};
use std::marker::Model;

/// Space and tab, which part the words of a line.
const BLANKS: [u8; 2] = [b' ', b'\t'];

/// The greatest natural number that a word writes.
const GREATEST: u32 = 4_294_967_295;

/// The most digits of a register.
const REGISTER_DIGITS: usize = 3;

/// The words of a line that are still to be read. Contracts see the list of them.
#[derive(Drop)]
pub struct Words<'t> {
    line: &'t [u8],
    place: usize,
}

impl<'t> Model for Words<'t> {
    ghost use Rattle.std.specs.Prelude.{ℕ, ◌≤◌, List, length};
    ghost use Rattle.assembler.specs.Readers.{words_after};

    ghost Value = { List (List ℕ) };

    ghost view = { λ words. words_after words.place words.line.now };

    ghost invariant = { λ words. words.place ≤ length words.line.now };
}

impl<'t> Words<'t> {
    /// The words of a line; what stands after the first # is none of it.
    pub fn of(line: &'t [u8]) -> Words<'t>
        ensures { result ≡ words_in line.now }
    {
        Words {
            line: &line[..comment_start(line)],
            place: 0,
        }
    }

    /// Whether there is none.
    pub fn are_none(&self) -> bool
        ensures { IsTrue result ↔ (self.now ≡ []) }
    {
        next_word(self.line, self.place, &BLANKS).is_none()
    }

    /// The next word. None where there is none any more.
    pub fn next_word(&mut self) -> Option<&'t [u8]>
        ensures { MatchOption result ((self.old ≡ []) × (self.new ≡ [])) (λ word. self.old ≡ word.now ∷ self.new) }
    {
        let word = next_word(self.line, self.place, &BLANKS)?;
        self.place = word.end;
        Some(&self.line[word.start..word.end])
    }
}

/// How many bytes of a line stand before its comment.
fn comment_start(line: &[u8]) -> usize
    ensures count { result ≡ prefix_len (λ b. not (b == 35)) line.now }
    ensures within { result ≤ length line.now }
{
    line.iter().take_while(|byte| **byte != b'#').count()
}

/// Whether a word is a name: a letter, and then letters, digits and _.
pub fn is_name(word: &[u8]) -> bool
    ensures { result ≡ is_name word.now }
{
    match word {
        [first, rest @ ..] => first.is_ascii_alphabetic() && are_name_bytes(rest),
        [] => false,
    }
}

/// Whether all bytes are letters, digits and _.
fn are_name_bytes(bytes: &[u8]) -> bool
    ensures { result ≡ list_all is_name_byte bytes.now }
{
    bytes
        .iter()
        .all(|byte| byte.is_ascii_alphanumeric() || *byte == b'_')
}

/// The register that a word writes: r and one to three digits, up to 255.
pub fn register_in(word: &[u8]) -> Option<u8>
    ensures { MatchOption result (WritesNo a_register word.now) (WritesOnly a_register word.now) }
{
    let digits = word.strip_prefix(b"r")?;
    if digits.is_empty() || digits.len() > REGISTER_DIGITS || digits_len(digits) != digits.len() {
        return None;
    }
    let register = number_up_to(digits, u128::from(u8::MAX))?;
    Some(register as u8)
}

/// The natural number that a word writes: digits, up to 4294967295.
pub fn natural_in(word: &[u8]) -> Option<u32>
    ensures { MatchOption result (WritesNo a_natural word.now) (WritesOnly a_natural word.now) }
{
    if word.is_empty() || digits_len(word) != word.len() {
        return None;
    }
    let number = number_up_to(word, u128::from(GREATEST))?;
    Some(number as u32)
}

/// The integer that a word writes: an optional minus and digits, within 128 bits.
pub fn integer_in(word: &[u8]) -> Option<i128>
    ensures { MatchOption result (WritesNo an_integer word.now) (WritesOnly an_integer word.now) }
{
    if !is_integer(word) {
        return None;
    }
    let digits = unsigned_part(word);
    if !word.starts_with(b"-") {
        return Some(number_up_to(digits, i128::MAX as u128)? as i128);
    }
    let magnitude = number_up_to(digits, 1 << 127)?;
    if magnitude == 1 << 127 {
        Some(i128::MIN)
    } else {
        Some(-(magnitude as i128))
    }
}
