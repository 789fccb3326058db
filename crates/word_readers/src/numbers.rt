ghost use Rattle.std.specs.Prelude.{◌≡◌, ◌<◌, ℕ, IfSome, map, string_bytes};
ghost use Rattle.number_theory.specs.Residue.{AreResidues};
ghost use Rattle.moduli_sets.specs.Moduli.{set_of};
ghost use Rattle.moduli_sets.specs.Set.{IsInRange};
ghost use Rattle.moduli_sets.specs.Name.{set_of_name};
ghost use Rattle.word_readers.specs.Numbers.{integer_in_range, residue_in, residues_in, steps_in};

use moduli_sets::{Moduli, SetName, Vector};
use plain_text::{digits_len, integer_up_to, is_integer, number_up_to, unsigned_part};

/// The most digits of an integer among the words.
const DIGITS: usize = 39;

/// The most digits of a residue or a limit among the words.
const SHORT_DIGITS: usize = 10;

/// The greatest limit of steps.
const MOST_STEPS: u32 = 1_000_000_000;

/// The residues that words write, one for each channel of the set, each below its modulus.
pub fn residues_in(set: &Moduli, words: &[String]) -> Option<Vector>
    ensures value { result ≡ residues_in (set_of set.now).moduli (map string_bytes words.now) }
    ensures below { IfSome result (AreResidues (set_of set.now).moduli) }
{
    if words.len() != set.count() {
        return None;
    }
    let mut residues = Vector::new();
    for (i, word) in words.iter().enumerate() {
        residues.push(residue_in(set.modulus(i), word.as_bytes())?);
    }
    Some(residues)
}

/// The residue that a word writes: 1 to 10 digits with a value below the modulus.
fn residue_in(modulus: u32, word: &[u8]) -> Option<u32>
    requires { 0 < modulus }
    ensures { result ≡ residue_in modulus word.now }
{
    if word.is_empty() || word.len() > SHORT_DIGITS || digits_len(word) != word.len() {
        return None;
    }
    let residue = number_up_to(word, u128::from(modulus) - 1)?;
    Some(residue as u32)
}

/// The limit of steps that a word writes: 1 to 10 digits with a value of 1 to 1,000,000,000.
pub fn steps_in(word: &[u8]) -> Option<u64>
    ensures { result ≡ steps_in word.now }
{
    let steps = residue_in(MOST_STEPS + 1, word)?;
    if steps == 0 {
        None
    } else {
        Some(u64::from(steps))
    }
}

/// The integer that a word writes, where it has at most 39 digits and lies in the range of the set.
pub fn integer_in_range(set: SetName, word: &[u8]) -> Option<i128>
    ensures value { result ≡ integer_in_range set word.now }
    ensures range { IfSome result (λ x. IsInRange (set_of_name set) x) }
{
    if !is_integer(word) || unsigned_part(word).len() > DIGITS {
        return None;
    }
    integer_up_to(word, Moduli::of(set).bound() as u128)
}
