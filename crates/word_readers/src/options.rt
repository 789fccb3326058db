ghost use Rattle.std.specs.Prelude.{◌≡◌, ◌+◌, ◌≤◌, IfSome, IsCharBoundary, MatchOption, [], ◌∷◌, count_by, drop, length, map, string_bytes};
ghost use Rattle.std.specs.Option.{option_map, option_map_or};
ghost use Rattle.std.specs.Str.{bytes_eq};
ghost use Rattle.word_readers.specs.Options.{flag_of, has_only_options, is_option, is_row_of, is_word_of, row_of, value_in, values_of};

/// Whether an option has a value.
#[derive(Clone, Copy, Debug, PartialEq, Eq)]
pub enum OptionKind {
    /// A word `NAME=VALUE`.
    Value,
    /// A word that is the name alone.
    Flag,
}

/// An option that a command has: its name, which begins with `--` and has no `=`, and its kind.
pub type OptionRow = (&'static str, OptionKind);

/// Whether each word after the command is an operand or an option of the table.
pub fn has_only_options(words: &[String], table: &[OptionRow]) -> bool
    ensures { result ≡ has_only_options (map row_of table.now) (map string_bytes words.now) }
{
    after_command(words)
        .iter()
        .all(|word| is_word_of(word.as_str(), table))
}

/// The value of the option of this name, where there is one; the outer None where there are two.
pub fn option_value<'a>(words: &'a [String], name: &str) -> Option<Option<&'a str>>
    ensures { MatchOption result (2 ≤ length (values_of name.now (map string_bytes words.now)))
        (λ value. values_of name.now (map string_bytes words.now) ≡ option_map_or (λ text. text.now ∷ []) value []) }
{
    let rest = after_command(words);
    let mut found = None;
    for word in rest {
        if let Some(value) = value_in(word.as_str(), name) {
            if found.is_some() {
                return None;
            }
            found = Some(value);
        }
    }
    Some(found)
}

/// Whether the flag of this name is there; None where it is there twice.
pub fn has_flag(words: &[String], name: &str) -> Option<bool>
    ensures { result ≡ flag_of name.now (map string_bytes words.now) }
{
    match count_flags(after_command(words), name) {
        0 => Some(false),
        1 => Some(true),
        _ => None,
    }
}

/// How many of the words are the flag of this name.
fn count_flags(words: &[String], name: &str) -> usize
    ensures { result ≡ count_by (λ word. bytes_eq word name.now) (map string_bytes words.now) }
{
    words.iter().filter(|word| word.as_str() == name).count()
}

/// The words after the command.
fn after_command(words: &[String]) -> &[String]
    ensures { map string_bytes result.now ≡ drop 1 (map string_bytes words.now) }
{
    match words.split_first() {
        Some((_, rest)) => rest,
        None => words,
    }
}

/// Whether a word is an operand or an option of the table.
fn is_word_of(word: &str, table: &[OptionRow]) -> bool
    ensures { result ≡ is_word_of (map row_of table.now) word.now }
{
    !is_option(word) || table.iter().any(|row| is_row_of(word, row))
}

/// Whether a word is the option of a row.
fn is_row_of(word: &str, row: &OptionRow) -> bool
    ensures { result ≡ is_row_of word.now (row_of row.now) }
{
    let (name, kind) = *row;
    match kind {
        OptionKind::Value => value_in(word, name).is_some(),
        OptionKind::Flag => word == name,
    }
}

/// The value that a word `NAME=VALUE` gives the option of this name. What stands before the first `=` is the name,
/// and the value begins after it.
pub(crate) fn value_in<'a>(word: &'a str, name: &str) -> Option<&'a str>
    ensures value { option_map (λ value. value.now) result ≡ value_in name.now word.now }
    ensures place { IfSome result (λ value. IsCharBoundary word.now (length name.now + 1)) }
{
    let (own_name, value) = word.split_once('=')?;
    if own_name == name { Some(value) } else { None }
}

/// Whether a word is an option.
pub(crate) fn is_option(word: &str) -> bool
    ensures { result ≡ is_option word.now }
{
    word.starts_with("--")
}
