//! Reads the tokens of a thin source as its tree.
//!
//! Each reader takes what it reads from the front of the tokens and gives the tokens that are left, or None
//! where no such thing stands there.
ghost use Rattle.std.specs.Prelude.{◌≡◌, ℕ, ◌≤◌, IfOk, IfSome, IsSomeAnd, MatchOption, List, map, option_map};
ghost use Rattle.std.specs.List.{flat_map, All};
ghost use Rattle.thin_source.specs.ThinTree as tree;
ghost use Rattle.thin_source.specs.ThinGrammar.{IsTokenOf, SpellsProgram, symbols_of, statement_symbols};
ghost use Rattle.thin_source.specs.ThinView.{atom_view, product_view, sign_view, sum_view, statement_view, declaration_view, program_view};
ghost use Rattle.thin_source.specs.ThinFronts.{IsMark, Finds, FindsMark, NameFront, NumberFront, AtomFront, ProductFront, SignFront, SumFront, ClosedFront, TargetFront, StatementFront, BoundFront, DeclarationFront, DeclarationsFront};

use crate::tree::{Atom, Declaration, Product, Program, Sign, Statement, Sum};
use plain_text::number_up_to;
use source_lexer::{Token, TokenKind};
use std::alloc::{AllocError, Global};

/// The largest number that a source may have.
const LARGEST: u128 = i128::MAX as u128;

/// The program that tokens of a text spell, where they spell one.
pub fn parse<'a>(
    alloc: Global,
    text: &'a [u8],
    tokens: &[Token],
) -> Result<Option<Program<'a>>, AllocError>
    requires { All (IsTokenOf text.now) tokens.now }
    ensures found { IfOk result (λ found. IfSome found (λ program. SpellsProgram (symbols_of text.now tokens.now) (program_view program))) }
    // No other program is spelled, and where one is, it is found.
    ensures only { IfOk result (λ found. (program : tree.Program) → SpellsProgram (symbols_of text.now tokens.now) program
        → IsSomeAnd found (λ own. program_view own ≡ program)) }
{
    let Some((declarations, rest)) = declarations(alloc, text, tokens)? else {
        return Ok(None);
    };
    let Some(statements) = statements(alloc, text, rest)? else {
        return Ok(None);
    };
    Ok(Some(Program {
        declarations,
        statements,
    }))
}

/// The declarations at the front, as long as `var` stands there.
fn declarations<'a, 't>(
    alloc: Global,
    text: &'a [u8],
    tokens: &'t [Token],
) -> Result<Option<(Vec<Declaration<'a>>, &'t [Token])>, AllocError>
    requires { All (IsTokenOf text.now) tokens.now }
    ensures { IfOk result (λ found. Finds DeclarationsFront text.now tokens.now (option_map (λ own. (map declaration_view own.0.items, own.1.now)) found)) }
{
    let mut found = Vec::new(alloc);
    let mut rest = tokens;
    while front_mark(rest, TokenKind::Var).is_some() {
        let Some((next, after)) = declaration(text, rest) else {
            return Ok(None);
        };
        found.push(next)?;
        rest = after;
    }
    Ok(Some((found, rest)))
}

/// All tokens as statements.
fn statements<'a>(
    alloc: Global,
    text: &'a [u8],
    tokens: &[Token],
) -> Result<Option<Vec<Statement<'a>>>, AllocError>
    requires { All (IsTokenOf text.now) tokens.now }
    ensures { IfOk result (λ found. MatchOption found
        ((others : List tree.Statement) → symbols_of text.now tokens.now ≡ flat_map statement_symbols others → ⊥)
        (λ own. symbols_of text.now tokens.now ≡ flat_map statement_symbols (map statement_view own.items))) }
{
    let mut found = Vec::new(alloc);
    let mut rest = tokens;
    while !rest.is_empty() {
        let Some((next, after)) = statement(alloc, text, rest)? else {
            return Ok(None);
        };
        found.push(next)?;
        rest = after;
    }
    Ok(Some(found))
}

/// `var name: low..high;`
fn declaration<'a, 't>(
    text: &'a [u8],
    tokens: &'t [Token],
) -> Option<(Declaration<'a>, &'t [Token])>
    requires { All (IsTokenOf text.now) tokens.now }
    ensures { Finds DeclarationFront text.now tokens.now (option_map (λ own. (declaration_view own.0, own.1.now)) result) }
{
    let rest = front_mark(tokens, TokenKind::Var)?;
    let (name, rest) = front_name(text, rest)?;
    let rest = front_mark(rest, TokenKind::Colon)?;
    let (low, rest) = bound(text, rest)?;
    let rest = front_mark(rest, TokenKind::Dots)?;
    let (high, rest) = bound(text, rest)?;
    let rest = front_mark(rest, TokenKind::Semicolon)?;
    Some((Declaration { name, low, high }, rest))
}

/// A number, with a minus in front of it or without.
fn bound<'t>(text: &[u8], tokens: &'t [Token]) -> Option<(i128, &'t [Token])>
    requires { All (IsTokenOf text.now) tokens.now }
    ensures { Finds BoundFront text.now tokens.now (option_map (λ own. (own.0, own.1.now)) result) }
{
    let Some(unsigned) = front_mark(tokens, TokenKind::Minus) else {
        let (number, rest) = front_number(text, tokens)?;
        return Some((number as i128, rest));
    };
    let (number, rest) = front_number(text, unsigned)?;
    Some((-(number as i128), rest))
}

/// `name := sum;` or `print sum;`
fn statement<'a, 't>(
    alloc: Global,
    text: &'a [u8],
    tokens: &'t [Token],
) -> Result<Option<(Statement<'a>, &'t [Token])>, AllocError>
    requires { All (IsTokenOf text.now) tokens.now }
    ensures { IfOk result (λ found. Finds StatementFront text.now tokens.now (option_map (λ own. (statement_view own.0, own.1.now)) found)) }
{
    if let Some(rest) = front_mark(tokens, TokenKind::Print) {
        let Some((sum, rest)) = closed_sum(alloc, text, rest)? else {
            return Ok(None);
        };
        return Ok(Some((Statement::Print(sum), rest)));
    }
    let Some((name, rest)) = target(text, tokens) else {
        return Ok(None);
    };
    let Some((sum, rest)) = closed_sum(alloc, text, rest)? else {
        return Ok(None);
    };
    Ok(Some((Statement::Assign(name, sum), rest)))
}

/// A name and `:=`.
fn target<'a, 't>(text: &'a [u8], tokens: &'t [Token]) -> Option<(&'a [u8], &'t [Token])>
    requires { All (IsTokenOf text.now) tokens.now }
    ensures { Finds TargetFront text.now tokens.now (option_map (λ own. (own.0.now, own.1.now)) result) }
{
    let (name, rest) = front_name(text, tokens)?;
    let rest = front_mark(rest, TokenKind::Becomes)?;
    Some((name, rest))
}

/// `sum;`
fn closed_sum<'a, 't>(
    alloc: Global,
    text: &'a [u8],
    tokens: &'t [Token],
) -> Result<Option<(Sum<'a>, &'t [Token])>, AllocError>
    requires { All (IsTokenOf text.now) tokens.now }
    ensures { IfOk result (λ found. Finds ClosedFront text.now tokens.now (option_map (λ own. (sum_view own.0, own.1.now)) found)) }
{
    let Some((sum, rest)) = sum(alloc, text, tokens)? else {
        return Ok(None);
    };
    let Some(rest) = front_mark(rest, TokenKind::Semicolon) else {
        return Ok(None);
    };
    Ok(Some((sum, rest)))
}

/// Products with `+` and `-` between them, as many as stand at the front.
fn sum<'a, 't>(
    alloc: Global,
    text: &'a [u8],
    tokens: &'t [Token],
) -> Result<Option<(Sum<'a>, &'t [Token])>, AllocError>
    requires { All (IsTokenOf text.now) tokens.now }
    ensures { IfOk result (λ found. Finds SumFront text.now tokens.now (option_map (λ own. (sum_view own.0, own.1.now)) found)) }
{
    let Some((first, mut rest)) = product(alloc, text, tokens)? else {
        return Ok(None);
    };
    let mut more = Vec::new(alloc);
    while let Some((sign, unsigned)) = front_sign(rest) {
        let Some((term, after)) = product(alloc, text, unsigned)? else {
            return Ok(None);
        };
        more.push((sign, term))?;
        rest = after;
    }
    Ok(Some((Sum { first, more }, rest)))
}

/// Atoms with `*` between them, as many as stand at the front.
fn product<'a, 't>(
    alloc: Global,
    text: &'a [u8],
    tokens: &'t [Token],
) -> Result<Option<(Product<'a>, &'t [Token])>, AllocError>
    requires { All (IsTokenOf text.now) tokens.now }
    ensures { IfOk result (λ found. Finds ProductFront text.now tokens.now (option_map (λ own. (product_view own.0, own.1.now)) found)) }
{
    let Some((first, mut rest)) = atom(text, tokens) else {
        return Ok(None);
    };
    let mut more = Vec::new(alloc);
    while let Some(behind) = front_mark(rest, TokenKind::Star) {
        let Some((factor, after)) = atom(text, behind) else {
            return Ok(None);
        };
        more.push(factor)?;
        rest = after;
    }
    Ok(Some((Product { first, more }, rest)))
}

/// A number or a name.
fn atom<'a, 't>(text: &'a [u8], tokens: &'t [Token]) -> Option<(Atom<'a>, &'t [Token])>
    requires { All (IsTokenOf text.now) tokens.now }
    ensures { Finds AtomFront text.now tokens.now (option_map (λ own. (atom_view own.0, own.1.now)) result) }
{
    if let Some((number, rest)) = front_number(text, tokens) {
        return Some((Atom::Number(number), rest));
    }
    let (name, rest) = front_name(text, tokens)?;
    Some((Atom::Name(name), rest))
}

/// `+` or `-`
fn front_sign(tokens: &[Token]) -> Option<(Sign, &[Token])>
    ensures { (text : List ℕ) → All (IsTokenOf text) tokens.now → Finds SignFront text tokens.now (option_map (λ own. (sign_view own.0, own.1.now)) result) }
{
    if let Some(rest) = front_mark(tokens, TokenKind::Plus) {
        return Some((Sign::Plus, rest));
    }
    let rest = front_mark(tokens, TokenKind::Minus)?;
    Some((Sign::Minus, rest))
}

/// The bytes of a name.
fn front_name<'a, 't>(text: &'a [u8], tokens: &'t [Token]) -> Option<(&'a [u8], &'t [Token])>
    requires { All (IsTokenOf text.now) tokens.now }
    ensures { Finds NameFront text.now tokens.now (option_map (λ own. (own.0.now, own.1.now)) result) }
{
    let (token, rest) = tokens.split_first()?;
    if !matches!(token.kind, TokenKind::Name) {
        return None;
    }
    Some((&text[token.start..token.end], rest))
}

/// The value of a number.
fn front_number<'t>(text: &[u8], tokens: &'t [Token]) -> Option<(u128, &'t [Token])>
    requires { All (IsTokenOf text.now) tokens.now }
    ensures value { Finds NumberFront text.now tokens.now (option_map (λ own. (own.0, own.1.now)) result) }
    ensures fits { IfSome result (λ own. own.0 ≤ LARGEST) }
{
    let (token, rest) = tokens.split_first()?;
    if !matches!(token.kind, TokenKind::Number) {
        return None;
    }
    let number = number_up_to(&text[token.start..token.end], LARGEST)?;
    Some((number, rest))
}

/// The tokens behind a keyword or a symbol.
fn front_mark(tokens: &[Token], kind: TokenKind) -> Option<&[Token]>
    requires { IsMark kind }
    ensures { (text : List ℕ) → All (IsTokenOf text) tokens.now → FindsMark kind text tokens.now (option_map (λ rest. rest.now) result) }
{
    let (token, rest) = tokens.split_first()?;
    if token.kind != kind {
        return None;
    }
    Some(rest)
}
