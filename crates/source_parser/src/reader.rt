ghost use Rattle.std.specs.Prelude.{◌≡◌, ◌<◌, ◌≤◌, ◌≤ℤ◌, [], ◌∷◌, IfOk, IfSome, List, MatchOption, MatchResult, length, pos};
ghost use Rattle.std.specs.List.{All};
ghost use Rattle.source_lexer.specs.Placed.{IsPlaced};
ghost use Rattle.source_lexer.specs.declared.token.TokenKind.{TokenKind};
ghost use Rattle.source_parser.specs.Terminals.{terminals_of, first_line, kinds_of};
ghost use Rattle.source_parser.specs.Taking.{Consumes, ConsumesNext, IsFixed, TakesFixed, TakesLiteral, TakesIdentifier, TakesWithin, ExpectsFixed, ExpectsLiteral, ExpectsIdentifier};

use crate::fault::Fault;
use plain_text::number_up_to;
use source_lexer::{Token, TokenKind};
use source_tree::Name;
use sqlite_items::Items;
use std::alloc::{AllocError, Global};
use std::marker::Model;

/// The greatest number that is a token.
const GREATEST_LITERAL: u128 = i128::MAX as u128;

/// The tokens of a text that are not read yet. Contracts see what they mean to the grammar.
#[derive(Drop)]
pub struct Reader<'a> {
    text: &'a [u8],
    rest: &'a [Token],
}

impl<'a> Model for Reader<'a> {
    ghost use Rattle.std.specs.Prelude.{List};
    ghost use Rattle.std.specs.List.{All};
    ghost use Rattle.source_lexer.specs.Placed.{IsPlaced};
    ghost use Rattle.source_parser.specs.Terminals.{Terminal, terminals_of};

    ghost Value = { List Terminal };

    ghost view = { λ reader. terminals_of reader.text.now reader.rest.now };

    ghost invariant = { λ reader. All (IsPlaced reader.text.now) reader.rest.now };
}

impl<'a> Reader<'a> {
    pub fn new(text: &'a [u8], tokens: &'a [Token]) -> Reader<'a>
        requires { All (IsPlaced text.now) tokens.now }
        ensures { result ≡ terminals_of text.now tokens.now }
    {
        Reader { text, rest: tokens }
    }

    /// How many tokens are left.
    pub fn len(&self) -> usize
        ensures { result ≡ length self.now }
    {
        self.rest.len()
    }

    /// The line of the next token; 0 at the end.
    pub fn line(&self) -> u32
        ensures { result ≡ first_line self.now }
    {
        match self.rest.first() {
            Some(token) => token.line,
            None => 0,
        }
    }

    /// The kind of the next token.
    pub fn kind(&self) -> Option<TokenKind>
        ensures { MatchOption result (kinds_of self.now ≡ []) (λ kind. (rest : List TokenKind) × (kinds_of self.now ≡ kind ∷ rest)) }
    {
        Some(self.rest.first()?.kind)
    }

    /// The line of a keyword or symbol, which is read, where it stands next.
    pub fn take(&mut self, kind: TokenKind) -> Option<u32>
        requires { IsFixed kind }
        ensures value { TakesFixed kind self.old result self.new }
        ensures shorter { MatchOption result (length self.new ≤ length self.old) (λ _. length self.new < length self.old) }
    {
        let (token, rest) = self.rest.split_first()?;
        if token.kind != kind {
            return None;
        }
        self.rest = rest;
        Some(token.line)
    }

    /// The same, of a keyword or symbol that must stand next.
    pub fn expect(&mut self, kind: TokenKind) -> Result<u32, Fault>
        requires { IsFixed kind }
        ensures value { ExpectsFixed kind self.old result self.new }
        ensures shorter { Consumes self.old result self.new }
    {
        self.take(kind).ok_or(Fault::Stops)
    }

    /// The same, of a keyword or symbol of which only so many are allowed.
    pub fn take_within(&mut self, kind: TokenKind, limit: usize) -> Result<Option<u32>, Fault>
        requires { IsFixed kind }
        ensures value { TakesWithin kind limit self.old result self.new }
        ensures shorter { ConsumesNext self.old result self.new }
    {
        if limit > 0 {
            return Ok(self.take(kind));
        }
        match self.rest.first() {
            Some(token) if token.kind == kind => Err(Fault::Deep),
            _ => Ok(None),
        }
    }

    /// A number and its line, which is read, where it stands next.
    pub fn take_number(&mut self) -> Option<(i128, u32)>
        ensures value { TakesLiteral self.old result self.new }
        ensures shorter { MatchOption result (length self.new ≤ length self.old) (λ _. length self.new < length self.old) }
        ensures sign { IfSome result (λ found. pos 0 ≤ℤ found.0) }
    {
        let (token, rest) = self.rest.split_first()?;
        if !matches!(token.kind, TokenKind::Number) {
            return None;
        }
        let number = number_up_to(token.bytes(self.text), GREATEST_LITERAL)?;
        self.rest = rest;
        Some((number as i128, token.line))
    }

    /// The same, of a number that must stand next.
    pub fn expect_number(&mut self) -> Result<i128, Fault>
        ensures value { ExpectsLiteral self.old result self.new }
        ensures shorter { Consumes self.old result self.new }
        ensures sign { IfOk result (λ value. pos 0 ≤ℤ value) }
    {
        let (value, _) = self.take_number().ok_or(Fault::Stops)?;
        Ok(value)
    }

    /// A name, which is read, where one stands next.
    pub fn take_name(&mut self, alloc: Global) -> Result<Option<Name>, AllocError>
        ensures value { TakesIdentifier self.old result self.new }
        ensures shorter { MatchResult result (λ found. MatchOption found (length self.new ≤ length self.old) (λ _. length self.new < length self.old)) (λ _. length self.new ≤ length self.old) }
    {
        let Some((token, rest)) = self.rest.split_first() else {
            return Ok(None);
        };
        if !matches!(token.kind, TokenKind::Name) {
            return Ok(None);
        }
        let bytes = Items::from_slice(alloc, token.bytes(self.text))?;
        self.rest = rest;
        Ok(Some(Name {
            bytes,
            line: token.line,
        }))
    }

    /// The same, of a name that must stand next.
    pub fn expect_name(&mut self, alloc: Global) -> Result<Name, Fault>
        ensures value { ExpectsIdentifier self.old result self.new }
        ensures shorter { Consumes self.old result self.new }
    {
        self.take_name(alloc)?.ok_or(Fault::Stops)
    }
}
