ghost use Rattle.plain_text.specs.Digits.{value_of_digits};
ghost use Rattle.plain_text.specs.Lines.{line_at};
ghost use Rattle.source_lexer.specs.declared.lexer.LexFault.TheVariants.{NoMemory};
ghost use Rattle.source_lexer.specs.declared.token.Token.{Token};
ghost use Rattle.source_lexer.specs.declared.token.TokenKind.TheVariants.{Number};
ghost use Rattle.source_lexer.specs.Placed.{IsBefore, IsPlaced};
ghost use Rattle.source_lexer.specs.Prefixes.{IsPrefixToken};
ghost use Rattle.source_lexer.specs.Scan.{IsFirstFault, IsShort, ScanEnd, Scans, greatest_literal, whole};
ghost use Rattle.source_lexer.specs.Steps.{FailsNext, GoesOn};
ghost use Rattle.source_lexer.specs.Tokens.{IsToken};
ghost use Rattle.std.specs.Bool.{MatchBool};
ghost use Rattle.std.specs.List.{All, AllPairs};
ghost use Rattle.std.specs.Prelude.{IfOk, List, MatchResult, ◌<◌, ◌≡◌, ◌≤◌, ℕ, length};

use crate::gap::gap_len;
use crate::symbol::symbol_at;
use crate::token::{Token, TokenKind};
use crate::word::{name_len, word_kind};
use plain_text::{digits_len, line_feeds, number_up_to};
use std::alloc::{AllocFailed, Global};

/// The greatest number that is a token: 2^127 - 1.
const GREATEST_LITERAL: u128 = 170141183460469231731687303715884105727;

/// Why a text isn't made of tokens; lines are counted from 1.
#[derive(Clone, Copy, Debug, PartialEq, Eq)]
pub enum LexFault {
    /// A byte on this line begins no token.
    BadByte(u32),
    /// A number on this line is above 170141183460469231731687303715884105727.
    LongLiteral(u32),
    /// Memory ran out.
    NoMemory,
}

impl<T: Drop> From<AllocFailed<T>> for LexFault {
    ghost from_gives = { λ _ fault. fault ≡ NoMemory };

    fn from(_failed: AllocFailed<T>) -> Self {
        LexFault::NoMemory
    }
}

/// The longest token at the start of a text, and its length.
fn token_at(text: &[u8]) -> Option<(TokenKind, usize)>
    ensures { IsPrefixToken text.now result }
{
    let first = text.first()?;
    if first.is_ascii_alphabetic() {
        let len = name_len(text);
        Some((word_kind(&text[..len]), len))
    } else if first.is_ascii_digit() {
        Some((TokenKind::Number, digits_len(text)))
    } else {
        symbol_at(text)
    }
}

/// Whether a token is a number above the greatest literal.
fn is_long(kind: TokenKind, token: &[u8]) -> bool
    requires { IsToken kind token.now }
    ensures { MatchBool result ((kind ≡ Number) × (greatest_literal < value_of_digits token.now)) (IsShort kind token.now) }
{
    match kind {
        TokenKind::Number => number_up_to(token, GREATEST_LITERAL).is_none(),
        _ => false,
    }
}

/// The next token from a place on, where there is one; the line is the one of that place.
fn next_token(text: &[u8], from: usize, line: u32) -> Result<Option<Token>, LexFault>
    requires short { length text.now ≤ 4294967294 }
    requires inside { from ≤ length text.now }
    requires counted { line ≡ line_at text.now from }
    ensures { MatchResult result (GoesOn text.now from) (FailsNext text.now from) }
{
    let gap = gap_len(&text[from..]);
    let start = from + gap;
    let line = line + line_feeds(&text[from..start]) as u32;
    let rest = &text[start..];
    if rest.is_empty() {
        return Ok(None);
    }
    let Some((kind, len)) = token_at(rest) else {
        return Err(LexFault::BadByte(line));
    };
    if is_long(kind, &rest[..len]) {
        return Err(LexFault::LongLiteral(line));
    }
    Ok(Some(Token {
        kind,
        start,
        end: start + len,
        line,
    }))
}

/// The tokens of a text, in order: each lies in the text after the one before. A fault is the first of the text.
pub fn tokens(alloc: Global, text: &[u8]) -> Result<Vec<Token>, LexFault>
    requires { length text.now ≤ 4294967294 }
    ensures scan { MatchResult result (λ found. Scans text.now found.items whole) (IsFirstFault text.now) }
    ensures slices { IfOk result (λ found. All (IsPlaced text.now) found.items) }
    ensures in_order { IfOk result (λ found. AllPairs IsBefore found.items) }
{
    let mut found = Vec::new(alloc);
    let mut place = 0;
    let mut line = 1;
    while let Some(token) = next_token(text, place, line)? {
        place = token.end;
        line = token.line;
        found.push(token)?;
    }
    Ok(found)
}

/// A text has one list of tokens and one end.
pub fn one_scan()
    ensures { (text : List ℕ) (a b : List Token) (x y : ScanEnd) → Scans text a x → Scans text b y → (a ≡ b) × (x ≡ y) }
{}
