ghost use Rattle.plain_text.specs.Words.{is_separator, words_from};
ghost use Rattle.std.specs.Prelude.{◌≡◌, ◌<◌, ◌≤◌, ◌∷◌, [], MatchOption, false, not, drop, length};
ghost use Rattle.std.specs.List.{prefix_len, slice_range};

/// Space, tab, CR and LF, which part the words of an input. VT, FF and NUL part none.
pub const WHITE_SPACE: [u8; 4] = [b' ', b'\t', b'\r', b'\n'];

/// Where a word stands in its text: the place of its first byte, and the one after its last.
#[derive(Clone, Copy, Debug, PartialEq, Eq)]
pub struct Word {
    pub start: usize,
    pub end: usize,
}

/// The first word of a text from a place on that isn't within a word; the bytes of `separators` part words. None where
/// there is no word any more.
pub fn next_word(text: &[u8], place: usize, separators: &[u8]) -> Option<Word>
    requires { place ≤ length text.now }
    ensures { MatchOption result (words_from separators.now false place (drop place text.now) ≡ [])
        (λ word. (words_from separators.now false place (drop place text.now)
        ≡ record { place = word.start; bytes = slice_range text.now word.start word.end }
        ∷ words_from separators.now false word.end (drop word.end text.now))
        × (place ≤ word.start)
        × (word.start < word.end)
        × (word.end ≤ length text.now)) }
{
    let start = place + separators_len(&text[place..], separators);
    if start == text.len() {
        return None;
    }
    let end = start + word_len(&text[start..], separators);
    Some(Word { start, end })
}

/// How many bytes at the start of a text part words.
fn separators_len(text: &[u8], separators: &[u8]) -> usize
    ensures count { result ≡ prefix_len (is_separator separators.now) text.now }
    ensures within { result ≤ length text.now }
{
    text.iter()
        .take_while(|byte| separators.contains(byte))
        .count()
}

/// How many bytes at the start of a text stand before the first that parts words.
fn word_len(text: &[u8], separators: &[u8]) -> usize
    ensures count { result ≡ prefix_len (λ b. not (is_separator separators.now b)) text.now }
    ensures within { result ≤ length text.now }
{
    text.iter()
        .take_while(|byte| !separators.contains(byte))
        .count()
}
