ghost use Rattle.source_lexer.specs.Prefixes.{BeginsWithSymbol, HasNoPair, IsPrefixToken, IsKindOf, IsPair};
ghost use Rattle.std.specs.Prelude.{MatchOption, [], ◌∷◌};

use crate::token::TokenKind;

/// The symbol of two bytes at the start of a text.
fn pair_at(text: &[u8]) -> Option<TokenKind>
    requires { BeginsWithSymbol text.now }
    ensures { MatchOption result (HasNoPair text.now) (IsPair text.now) }
{
    match text {
        [b':', b'=', ..] => Some(TokenKind::Becomes),
        [b'.', b'.', ..] => Some(TokenKind::Dots),
        [b'<', b'=', ..] => Some(TokenKind::LessEqual),
        [b'>', b'=', ..] => Some(TokenKind::GreaterEqual),
        [b'<', b'>', ..] => Some(TokenKind::NotEqual),
        _ => None,
    }
}

/// The symbol of one byte.
fn byte_symbol(byte: u8) -> Option<TokenKind>
    ensures { IsKindOf (byte ∷ []) result }
{
    match byte {
        b':' => Some(TokenKind::Colon),
        b';' => Some(TokenKind::Semicolon),
        b',' => Some(TokenKind::Comma),
        b'(' => Some(TokenKind::LeftParen),
        b')' => Some(TokenKind::RightParen),
        b'[' => Some(TokenKind::LeftBracket),
        b']' => Some(TokenKind::RightBracket),
        b'+' => Some(TokenKind::Plus),
        b'-' => Some(TokenKind::Minus),
        b'*' => Some(TokenKind::Star),
        b'<' => Some(TokenKind::Less),
        b'>' => Some(TokenKind::Greater),
        b'=' => Some(TokenKind::Equal),
        _ => None,
    }
}

/// The longest symbol at the start of a text, and its length.
pub fn symbol_at(text: &[u8]) -> Option<(TokenKind, usize)>
    requires { BeginsWithSymbol text.now }
    ensures { IsPrefixToken text.now result }
{
    match pair_at(text) {
        Some(kind) => Some((kind, 2)),
        None => Some((byte_symbol(text[0])?, 1)),
    }
}
