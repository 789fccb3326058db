ghost use Rattle.std.specs.Prelude.{◌≡◌, ◌<◌, ◌+◌, IfSome, MatchOption, [], ◌∷◌, length, map, slice_index_or, string_bytes};
ghost use Rattle.word_readers.specs.Operands.{IsFileWord, file_and_input, file_name, file_option, is_file_name, named_file, operands_from, operands_of, value_word, values_from};

use crate::options::{is_option, value_in};

/// The part of a word that names a file: word number `word`, from byte `skip` on. The command is word 0.
#[derive(Clone, Copy, Debug, PartialEq, Eq)]
pub struct FileWord {
    pub word: usize,
    pub skip: usize,
}

/// The part of the words that names a file.
pub fn name_of(words: &[String], file: FileWord) -> &str
    requires { IsFileWord (map string_bytes words.now) file }
    ensures { result.now ≡ file_name (map string_bytes words.now) file }
{
    &words[file.word].as_str()[file.skip..]
}

/// The file and the input that the operands of a command line name, where these are two. The input is a file as
/// well, or `-`, which is none.
pub fn file_and_input(words: &[String]) -> Option<(FileWord, Option<FileWord>)>
    ensures value { result ≡ file_and_input (operands_of (map string_bytes words.now)) }
    ensures within { IfSome result (λ files. IsFileWord (map string_bytes words.now) files.0
        × IfSome files.1 (IsFileWord (map string_bytes words.now))) }
{
    let file = next_operand(words, 1)?;
    let input = next_operand(words, file + 1)?;
    if next_operand(words, input + 1).is_some() {
        return None;
    }
    let file = named_file(words, file)?;
    if words[input].as_str() == "-" {
        return Some((file, None));
    }
    let input = named_file(words, input)?;
    Some((file, Some(input)))
}

/// The file that the option of this name names, where it is there: what follows the `=` of its word, neither nothing nor
/// `-`. The outer None where it names no file, or is there twice.
pub fn file_option(words: &[String], name: &str) -> Option<Option<FileWord>>
    ensures value { result ≡ file_option name.now (map string_bytes words.now) }
    ensures within { IfSome result (λ file. IfSome file (IsFileWord (map string_bytes words.now))) }
{
    let Some((word, value)) = next_value(words, 1, name) else {
        return Some(None);
    };
    if next_value(words, word + 1, name).is_some() {
        return None;
    }
    if value.is_empty() || value == "-" {
        return None;
    }
    let skip = name.len() + 1;
    Some(Some(FileWord { word, skip }))
}

/// The file that a word names, by the whole of it, where it may name one.
pub fn named_file(words: &[String], word: usize) -> Option<FileWord>
    requires { word < length words.now }
    ensures value { result ≡ named_file (word, slice_index_or (map string_bytes words.now) word []) }
    ensures within { IfSome result (IsFileWord (map string_bytes words.now)) }
{
    if !is_file_name(words[word].as_str()) {
        return None;
    }
    Some(FileWord { word, skip: 0 })
}

/// The number of the first operand from a word on.
fn next_operand(words: &[String], from: usize) -> Option<usize>
    ensures value { MatchOption result (operands_from from (map string_bytes words.now) ≡ [])
        (λ i. operands_from from (map string_bytes words.now)
        ≡ (i, slice_index_or (map string_bytes words.now) i []) ∷ operands_from (i + 1) (map string_bytes words.now)) }
    ensures within { IfSome result (λ i. i < length words.now) }
{
    let mut i = from;
    while i < words.len() {
        if !is_option(words[i].as_str()) {
            return Some(i);
        }
        i += 1;
    }
    None
}

/// The first value of the option of this name from a word on, with the number of its word.
fn next_value<'a>(words: &'a [String], from: usize, name: &str) -> Option<(usize, &'a str)>
    ensures value { MatchOption result (values_from name.now from (map string_bytes words.now) ≡ [])
        (λ found. values_from name.now from (map string_bytes words.now)
        ≡ (found.0, found.1.now) ∷ values_from name.now (found.0 + 1) (map string_bytes words.now)) }
    ensures within { IfSome result (λ found. IsFileWord (map string_bytes words.now) (value_word name.now found.0)) }
{
    let mut i = from;
    while i < words.len() {
        if let Some(value) = value_in(words[i].as_str(), name) {
            return Some((i, value));
        }
        i += 1;
    }
    None
}

/// Whether a word may name a file: it isn't empty, nor `-`, nor an option.
fn is_file_name(word: &str) -> bool
    ensures { result ≡ is_file_name word.now }
{
    !word.is_empty() && word != "-" && !is_option(word)
}
