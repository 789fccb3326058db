ghost use Rattle.std.specs.Prelude.{ℕ, ◌≡◌, ◌+◌, ◌≤◌, ◌∷◌, [], IfOk, MatchOption, OnOk, length};
ghost use Rattle.source_parser.specs.Limits.{weight_limit};
ghost use Rattle.source_parser.specs.Grammar.{below, factor, weight, Joins, ReadsExpr, ReadsOutermost};
ghost use Rattle.source_parser.specs.Landings.{Lands};
ghost use Rattle.source_parser.specs.Terminals.{identifier};
ghost use Rattle.source_parser.specs.Taking.{level_of, Consumes, ConsumesNext, IsFixed, TakesOperator, TakesWeighted};
ghost use Rattle.source_parser.specs.Wants.{outermost, factor as wants_factor, index as wants_index, wanted};
ghost use Rattle.source_tree.specs.declared.expression.Expr.{Binary};
ghost use Rattle.source_tree.specs.declared.expression.Operator.{Operator};

use crate::fault::Fault;
use crate::reader::Reader;
use source_lexer::TokenKind;
use source_tree::{Expr, Name, Operator};
use sqlite_items::Boxed;
use std::alloc::{AllocError, Global};

/// How many of `+`, `-`, `*`, `div`, `mod`, `(` and `[` an outermost expression may have.
const WEIGHT_LIMIT: usize = 200;

/// What operators of one level join, from the left.
#[derive(Clone, Copy)]
enum Chain {
    /// Terms with `+` and `-` between them.
    Sum,
    /// Factors with `*`, `div` and `mod` between them.
    Term,
}

impl Chain {
    /// The operator that a kind of tokens stands for between two parts.
    #[tactic(auto, using(crate::proofs::Taken::plus_joins, crate::proofs::Taken::minus_joins, crate::proofs::Taken::times_joins, crate::proofs::Taken::divided_joins, crate::proofs::Taken::remainder_joins))]
    fn operator(self, kind: TokenKind) -> Option<Operator>
        ensures { MatchOption result ((operator : Operator) → Joins (level_of self) kind operator → ⊥) (Joins (level_of self) kind) }
    {
        match (self, kind) {
            (Chain::Sum, TokenKind::Plus) => Some(Operator::Add),
            (Chain::Sum, TokenKind::Minus) => Some(Operator::Sub),
            (Chain::Term, TokenKind::Star) => Some(Operator::Mul),
            (Chain::Term, TokenKind::Div) => Some(Operator::Div),
            (Chain::Term, TokenKind::Mod) => Some(Operator::Mod),
            _ => None,
        }
    }
}

/// An expression that isn't inside another.
pub fn expr(alloc: Global, reader: &mut Reader<'_>) -> Result<Expr, Fault>
    ensures value { IfOk result (λ e. ReadsOutermost weight_limit reader.old e reader.new) }
    ensures lands { (depth spare : ℕ) → Lands (outermost ∷ []) reader.old depth spare result reader.new depth weight_limit }
    ensures shorter { Consumes reader.old result reader.new }
{
    let mut weight_left = WEIGHT_LIMIT;
    parts(alloc, reader, &mut weight_left, Chain::Sum)
}

/// Parts of a sum, or of a term, with its operators between them, as many as stand there.
#[cycle(expression)]
fn parts(
    alloc: Global,
    reader: &mut Reader<'_>,
    weight_left: &mut usize,
    chain: Chain,
) -> Result<Expr, Fault>
    ensures value { IfOk result (λ e. ReadsExpr (level_of chain) reader.old e reader.new) }
    ensures lands { (depth : ℕ)
        → Lands (wanted (level_of chain) ∷ []) reader.old depth weight_left.old result reader.new depth weight_left.new }
    ensures weight_paid { OnOk result (weight reader.old + weight_left.new ≡ weight reader.new + weight_left.old) }
    ensures shorter { Consumes reader.old result reader.new }
{
    let mut left = part(alloc, reader, weight_left, chain)?;
    while let Some((operator, line)) = sign(reader, weight_left, chain)? {
        let right = part(alloc, reader, weight_left, chain)?;
        left = joined(alloc, left, operator, right, line)?;
    }
    Ok(left)
}

/// A part of a sum, or of a term. It is inlined, so that nested expressions take no frames for it.
#[cycle(expression)]
#[inline]
fn part(
    alloc: Global,
    reader: &mut Reader<'_>,
    weight_left: &mut usize,
    chain: Chain,
) -> Result<Expr, Fault>
    ensures value { IfOk result (λ e. ReadsExpr (below (level_of chain)) reader.old e reader.new) }
    ensures lands { (depth : ℕ)
        → Lands (wanted (below (level_of chain)) ∷ []) reader.old depth weight_left.old result reader.new depth weight_left.new }
    ensures weight_paid { OnOk result (weight reader.old + weight_left.new ≡ weight reader.new + weight_left.old) }
    ensures shorter { Consumes reader.old result reader.new }
{
    match chain {
        Chain::Sum => parts(alloc, reader, weight_left, Chain::Term),
        Chain::Term => factor(alloc, reader, weight_left),
    }
}

/// A number, a name, an element, or an expression after `-` or in brackets.
#[cycle(expression)]
fn factor(alloc: Global, reader: &mut Reader<'_>, weight_left: &mut usize) -> Result<Expr, Fault>
    ensures value { IfOk result (λ e. ReadsExpr factor reader.old e reader.new) }
    ensures lands { (depth : ℕ) → Lands (wants_factor ∷ []) reader.old depth weight_left.old result reader.new depth weight_left.new }
    ensures weight_paid { OnOk result (weight reader.old + weight_left.new ≡ weight reader.new + weight_left.old) }
    ensures shorter { Consumes reader.old result reader.new }
{
    if let Some(line) = take_weighted(reader, TokenKind::Minus, weight_left)? {
        let operand = factor(alloc, reader, weight_left)?;
        let operand = Boxed::new(alloc, operand)?;
        return Ok(Expr::Neg { operand, line });
    }
    if take_weighted(reader, TokenKind::LeftParen, weight_left)?.is_some() {
        let inner = parts(alloc, reader, weight_left, Chain::Sum)?;
        reader.expect(TokenKind::RightParen)?;
        return Ok(inner);
    }
    if let Some((value, line)) = reader.take_number() {
        return Ok(Expr::Number { value, line });
    }
    let name = reader.expect_name(alloc)?;
    variable(alloc, reader, weight_left, name)
}

/// After a name: an index, or nothing.
#[cycle(expression)]
fn variable(
    alloc: Global,
    reader: &mut Reader<'_>,
    weight_left: &mut usize,
    name: Name,
) -> Result<Expr, Fault>
    ensures value { IfOk result (λ e. ReadsExpr factor (identifier name ∷ reader.old) e reader.new) }
    ensures lands { (depth : ℕ) → Lands (wants_index ∷ []) reader.old depth weight_left.old result reader.new depth weight_left.new }
    ensures weight_paid { OnOk result (weight reader.old + weight_left.new ≡ weight reader.new + weight_left.old) }
    ensures shorter { length reader.new ≤ length reader.old }
{
    if take_weighted(reader, TokenKind::LeftBracket, weight_left)?.is_none() {
        return Ok(Expr::Name(name));
    }
    let index = parts(alloc, reader, weight_left, Chain::Sum)?;
    reader.expect(TokenKind::RightBracket)?;
    let index = Boxed::new(alloc, index)?;
    Ok(Expr::Element { name, index })
}

/// The line of a keyword or symbol of which only so many are allowed, which is read, where it stands next.
fn take_weighted(
    reader: &mut Reader<'_>,
    kind: TokenKind,
    weight_left: &mut usize,
) -> Result<Option<u32>, Fault>
    requires { IsFixed kind }
    ensures value { TakesWeighted kind reader.old weight_left.old result reader.new weight_left.new }
    ensures shorter { ConsumesNext reader.old result reader.new }
{
    let found = reader.take_within(kind, *weight_left)?;
    if found.is_some() {
        *weight_left -= 1;
    }
    Ok(found)
}

/// An operator of a sum, or of a term, and its line, where one stands next, which is read.
fn sign(
    reader: &mut Reader<'_>,
    weight_left: &mut usize,
    chain: Chain,
) -> Result<Option<(Operator, u32)>, Fault>
    ensures value { TakesOperator (level_of chain) reader.old weight_left.old result reader.new weight_left.new }
    ensures shorter { ConsumesNext reader.old result reader.new }
{
    let Some(kind) = reader.kind() else {
        return Ok(None);
    };
    let Some(operator) = chain.operator(kind) else {
        return Ok(None);
    };
    match take_weighted(reader, kind, weight_left)? {
        Some(line) => Ok(Some((operator, line))),
        None => Ok(None),
    }
}

/// Two expressions with an operator between them.
fn joined(
    alloc: Global,
    left: Expr,
    operator: Operator,
    right: Expr,
    line: u32,
) -> Result<Expr, AllocError>
    ensures { IfOk result (λ e. e ≡ Binary left operator right line) }
{
    let left = Boxed::new(alloc, left)?;
    let right = Boxed::new(alloc, right)?;
    Ok(Expr::Binary {
        left,
        operator,
        right,
        line,
    })
}
