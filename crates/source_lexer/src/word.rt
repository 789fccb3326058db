ghost use Rattle.std.specs.Prelude.{◌≡◌, length, take};
ghost use Rattle.std.specs.List.{take_while};
ghost use Rattle.source_lexer.specs.Tokens.{IsIdentifier, IsToken, is_name_byte};

use crate::token::TokenKind;

/// How many letters, digits and `_` stand at the start of a text.
pub fn name_len(text: &[u8]) -> usize
    ensures { result ≡ length (take_while is_name_byte text.now) }
{
    text.iter()
        .take_while(|byte| byte.is_ascii_alphanumeric() || **byte == b'_')
        .count()
}

/// Which token an identifier is: a keyword, or else a name.
pub fn word_kind(word: &[u8]) -> TokenKind
    requires { IsIdentifier word.now }
    ensures { IsToken result word.now }
{
    match word {
        b"var" => TokenKind::Var,
        b"array" => TokenKind::Array,
        b"proc" => TokenKind::Proc,
        b"do" => TokenKind::Do,
        b"end" => TokenKind::End,
        b"print" => TokenKind::Print,
        b"read" => TokenKind::Read,
        b"if" => TokenKind::If,
        b"then" => TokenKind::Then,
        b"else" => TokenKind::Else,
        b"for" => TokenKind::For,
        b"to" => TokenKind::To,
        b"while" => TokenKind::While,
        b"limit" => TokenKind::Limit,
        b"div" => TokenKind::Div,
        b"mod" => TokenKind::Mod,
        _ => TokenKind::Name,
    }
}
