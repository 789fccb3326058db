ghost use Rattle.source_lexer.specs.Prefixes.{IsLongestGap};
ghost use Rattle.source_lexer.specs.Scan.{is_blank};
ghost use Rattle.std.specs.Prelude.{◌≡◌};

/// Whether a byte parts tokens outside of comments.
fn is_blank(byte: u8) -> bool
    ensures { result ≡ is_blank byte }
{
    matches!(byte, b' ' | b'\t' | b'\r' | b'\n')
}

/// How many bytes at the start of a text are blanks and comments.
pub fn gap_len(text: &[u8]) -> usize
    ensures { IsLongestGap text.now result }
{
    let mut inside_comment = false;
    for (place, byte) in text.iter().enumerate() {
        if inside_comment {
            inside_comment = *byte != b'\n';
        } else if *byte == b'#' {
            inside_comment = true;
        } else if !is_blank(*byte) {
            return place;
        }
    }
    text.len()
}
