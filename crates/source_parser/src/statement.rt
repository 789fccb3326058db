ghost use Rattle.std.specs.Prelude.{ℕ, suc, ◌++◌, ◌≤◌, ◌∷◌, [], IfOk, length};
ghost use Rattle.source_lexer.specs.declared.token.TokenKind.TheVariants.{Becomes as BecomesToken, Do as DoToken, End as EndToken, For as ForToken, If as IfToken, Name as NameToken, Number as NumberToken, Print as PrintToken, Read as ReadToken, Semicolon as SemicolonToken, To as ToToken, While as WhileToken};
ghost use Rattle.source_parser.specs.Limits.{weight_limit};
ghost use Rattle.source_parser.specs.Grammar.{ReadsCondition, ReadsElse, ReadsListed, ReadsOutermost, ReadsPlace, ReadsStatement, ReadsStatements};
ghost use Rattle.source_parser.specs.Landings.{Lands, LandsNext};
ghost use Rattle.source_parser.specs.Parts.{Closed, ReadsBounds, ReadsBranches, ReadsLiteral, ReadsName, ReadsNext};
ghost use Rattle.source_parser.specs.Taking.{Consumes, ConsumesNext, ExpectsComparison, IsFixed};
ghost use Rattle.source_parser.specs.Terminals.{fixed, identifier};
ghost use Rattle.source_parser.specs.Wants.{after_name, close, comparison as wants_comparison, condition_wanted, for_wanted, if_wanted, listed, otherwise, outermost, place_tail, statements as wants_statements, token, while_wanted};

use crate::expression::expr;
use crate::fault::Fault;
use crate::reader::Reader;
use source_lexer::TokenKind;
use source_tree::{Comparison, Condition, Expr, Name, Place, Statement};
use sqlite_items::Items;
use std::alloc::Global;

/// Statements, as many as stand there. In them `depth` of `if`, `for` and `while` may be open at once.
#[cycle(statement)]
pub fn statements(
    alloc: Global,
    reader: &mut Reader<'_>,
    depth: usize,
) -> Result<Items<Statement>, Fault>
    ensures value { IfOk result (λ found. ReadsStatements weight_limit depth reader.old found reader.new) }
    ensures lands { Lands (wants_statements ∷ []) reader.old depth weight_limit result reader.new depth weight_limit }
    ensures shorter { length reader.new ≤ length reader.old }
{
    let mut found = Items::new(alloc);
    while let Some(next) = statement(alloc, reader, depth)? {
        found.push(next)?;
    }
    Ok(found)
}

/// A statement, where one begins.
#[cycle(statement)]
fn statement(
    alloc: Global,
    reader: &mut Reader<'_>,
    depth: usize,
) -> Result<Option<Statement>, Fault>
    ensures value { ReadsNext (ReadsStatement weight_limit depth) reader.old result reader.new }
    ensures lands { LandsNext wants_statements reader.old depth weight_limit result reader.new }
    ensures shorter { ConsumesNext reader.old result reader.new }
{
    if let Some(line) = reader.take(TokenKind::Print) {
        return Ok(Some(print(alloc, reader, line)?));
    }
    if let Some(line) = reader.take(TokenKind::Read) {
        return Ok(Some(read(alloc, reader, line)?));
    }
    if let Some(line) = reader.take_within(TokenKind::If, depth)? {
        return Ok(Some(if_statement(alloc, reader, depth - 1, line)?));
    }
    if let Some(line) = reader.take_within(TokenKind::For, depth)? {
        return Ok(Some(for_statement(alloc, reader, depth - 1, line)?));
    }
    if let Some(line) = reader.take_within(TokenKind::While, depth)? {
        return Ok(Some(while_statement(alloc, reader, depth - 1, line)?));
    }
    match reader.take_name(alloc)? {
        Some(name) => Ok(Some(assignment_or_call(alloc, reader, name)?)),
        None => Ok(None),
    }
}

/// After `if`: `condition then statements else statements end`, the second statements with their `else` or neither.
#[cycle(statement)]
fn if_statement(
    alloc: Global,
    reader: &mut Reader<'_>,
    depth: usize,
    line: u32,
) -> Result<Statement, Fault>
    ensures value { IfOk result (λ found. ReadsStatement weight_limit (suc depth) (fixed IfToken line ∷ reader.old) found reader.new) }
    ensures lands { Lands (if_wanted) reader.old depth weight_limit result reader.new (suc depth) weight_limit }
    ensures shorter { Consumes reader.old result reader.new }
{
    let condition = condition_before(alloc, reader, TokenKind::Then)?;
    let (first, second) = branches(alloc, reader, depth)?;
    Ok(Statement::If {
        condition,
        first,
        second,
        line,
    })
}

/// `statements else statements end`, or `statements end`.
#[cycle(statement)]
fn branches(
    alloc: Global,
    reader: &mut Reader<'_>,
    depth: usize,
) -> Result<(Items<Statement>, Items<Statement>), Fault>
    ensures value { IfOk result (λ found. ReadsBranches weight_limit depth reader.old found reader.new) }
    ensures lands { Lands (wants_statements ∷ otherwise ∷ close ∷ []) reader.old depth weight_limit result reader.new (suc depth) weight_limit }
    ensures shorter { Consumes reader.old result reader.new }
{
    let first = statements(alloc, reader, depth)?;
    let second = else_part(alloc, reader, depth)?;
    Ok((first, second))
}

/// `else statements end`, or `end`.
#[cycle(statement)]
fn else_part(
    alloc: Global,
    reader: &mut Reader<'_>,
    depth: usize,
) -> Result<Items<Statement>, Fault>
    ensures value { IfOk result (λ found. Closed (ReadsElse weight_limit depth) EndToken reader.old found reader.new) }
    ensures lands { Lands (otherwise ∷ close ∷ []) reader.old depth weight_limit result reader.new (suc depth) weight_limit }
    ensures shorter { Consumes reader.old result reader.new }
{
    if reader.take(TokenKind::Else).is_none() {
        reader.expect(TokenKind::End)?;
        return Ok(Items::new(alloc));
    }
    body(alloc, reader, depth)
}

/// `statements end`
#[cycle(statement)]
fn body(alloc: Global, reader: &mut Reader<'_>, depth: usize) -> Result<Items<Statement>, Fault>
    ensures value { IfOk result (λ found. Closed (ReadsStatements weight_limit depth) EndToken reader.old found reader.new) }
    ensures lands { Lands (wants_statements ∷ close ∷ []) reader.old depth weight_limit result reader.new (suc depth) weight_limit }
    ensures shorter { Consumes reader.old result reader.new }
{
    let found = statements(alloc, reader, depth)?;
    reader.expect(TokenKind::End)?;
    Ok(found)
}

/// After `for`: `name := first to last do statements end`.
#[cycle(statement)]
fn for_statement(
    alloc: Global,
    reader: &mut Reader<'_>,
    depth: usize,
    line: u32,
) -> Result<Statement, Fault>
    ensures value { IfOk result (λ found. ReadsStatement weight_limit (suc depth) (fixed ForToken line ∷ reader.old) found reader.new) }
    ensures lands { Lands (for_wanted) reader.old depth weight_limit result reader.new (suc depth) weight_limit }
    ensures shorter { Consumes reader.old result reader.new }
{
    let name = counter(alloc, reader)?;
    let (first, last) = bounds(alloc, reader)?;
    let body = body(alloc, reader, depth)?;
    Ok(Statement::For {
        name,
        first,
        last,
        body,
        line,
    })
}

/// After `while`: `condition limit number do statements end`.
#[cycle(statement)]
fn while_statement(
    alloc: Global,
    reader: &mut Reader<'_>,
    depth: usize,
    line: u32,
) -> Result<Statement, Fault>
    ensures value { IfOk result (λ found. ReadsStatement weight_limit (suc depth) (fixed WhileToken line ∷ reader.old) found reader.new) }
    ensures lands { Lands (while_wanted) reader.old depth weight_limit result reader.new (suc depth) weight_limit }
    ensures shorter { Consumes reader.old result reader.new }
{
    let condition = condition_before(alloc, reader, TokenKind::Limit)?;
    let limit = limit(reader)?;
    let body = body(alloc, reader, depth)?;
    Ok(Statement::While {
        condition,
        limit,
        body,
        line,
    })
}

/// A condition, and the keyword after it.
fn condition_before(
    alloc: Global,
    reader: &mut Reader<'_>,
    keyword: TokenKind,
) -> Result<Condition, Fault>
    requires { IsFixed keyword }
    ensures value { IfOk result (λ found. Closed (ReadsCondition weight_limit) keyword reader.old found reader.new) }
    ensures lands { (depth spare : ℕ) → Lands (condition_wanted ++ token keyword ∷ []) reader.old depth spare result reader.new depth weight_limit }
    ensures shorter { Consumes reader.old result reader.new }
{
    let condition = condition(alloc, reader)?;
    reader.expect(keyword)?;
    Ok(condition)
}

/// `name :=`
fn counter(alloc: Global, reader: &mut Reader<'_>) -> Result<Name, Fault>
    ensures value { IfOk result (λ found. Closed ReadsName BecomesToken reader.old found reader.new) }
    ensures lands { (depth spare : ℕ) → Lands (token NameToken ∷ token BecomesToken ∷ []) reader.old depth spare result reader.new depth weight_limit }
    ensures shorter { Consumes reader.old result reader.new }
{
    let name = reader.expect_name(alloc)?;
    reader.expect(TokenKind::Becomes)?;
    Ok(name)
}

/// `first to last do`
fn bounds(alloc: Global, reader: &mut Reader<'_>) -> Result<(Expr, Expr), Fault>
    ensures value { IfOk result (λ found. ReadsBounds weight_limit reader.old found reader.new) }
    ensures lands { (depth spare : ℕ) → Lands (outermost ∷ token ToToken ∷ outermost ∷ token DoToken ∷ []) reader.old depth spare result reader.new depth weight_limit }
    ensures shorter { Consumes reader.old result reader.new }
{
    let first = expr(alloc, reader)?;
    reader.expect(TokenKind::To)?;
    let last = expr(alloc, reader)?;
    reader.expect(TokenKind::Do)?;
    Ok((first, last))
}

/// `number do`
fn limit(reader: &mut Reader<'_>) -> Result<i128, Fault>
    ensures value { IfOk result (λ found. Closed ReadsLiteral DoToken reader.old found reader.new) }
    ensures lands { (depth spare : ℕ) → Lands (token NumberToken ∷ token DoToken ∷ []) reader.old depth spare result reader.new depth weight_limit }
    ensures shorter { Consumes reader.old result reader.new }
{
    let limit = reader.expect_number()?;
    reader.expect(TokenKind::Do)?;
    Ok(limit)
}

/// After `print`: `value;`
fn print(alloc: Global, reader: &mut Reader<'_>, line: u32) -> Result<Statement, Fault>
    ensures value { (depth : ℕ) → IfOk result (λ found. ReadsStatement weight_limit depth (fixed PrintToken line ∷ reader.old) found reader.new) }
    ensures lands { (depth spare : ℕ) → Lands (outermost ∷ token SemicolonToken ∷ []) reader.old depth spare result reader.new depth weight_limit }
    ensures shorter { Consumes reader.old result reader.new }
{
    let value = value(alloc, reader)?;
    Ok(Statement::Print { value, line })
}

/// `value;`
fn value(alloc: Global, reader: &mut Reader<'_>) -> Result<Expr, Fault>
    ensures value { IfOk result (λ found. Closed (ReadsOutermost weight_limit) SemicolonToken reader.old found reader.new) }
    ensures lands { (depth spare : ℕ) → Lands (outermost ∷ token SemicolonToken ∷ []) reader.old depth spare result reader.new depth weight_limit }
    ensures shorter { Consumes reader.old result reader.new }
{
    let value = expr(alloc, reader)?;
    reader.expect(TokenKind::Semicolon)?;
    Ok(value)
}

/// After `read`: `place;`
fn read(alloc: Global, reader: &mut Reader<'_>, line: u32) -> Result<Statement, Fault>
    ensures value { (depth : ℕ) → IfOk result (λ found. ReadsStatement weight_limit depth (fixed ReadToken line ∷ reader.old) found reader.new) }
    ensures lands { (depth spare : ℕ) → Lands (token NameToken ∷ place_tail ∷ token SemicolonToken ∷ []) reader.old depth spare result reader.new depth weight_limit }
    ensures shorter { Consumes reader.old result reader.new }
{
    let name = reader.expect_name(alloc)?;
    let place = place(alloc, reader, name)?;
    reader.expect(TokenKind::Semicolon)?;
    Ok(Statement::Read { place, line })
}

/// After a name: `(arguments);`, or what an assignment to that name has after it.
fn assignment_or_call(
    alloc: Global,
    reader: &mut Reader<'_>,
    name: Name,
) -> Result<Statement, Fault>
    ensures value { (depth : ℕ) → IfOk result (λ found. ReadsStatement weight_limit depth (identifier name ∷ reader.old) found reader.new) }
    ensures lands { (depth spare : ℕ) → Lands (after_name ∷ []) reader.old depth spare result reader.new depth weight_limit }
    ensures shorter { Consumes reader.old result reader.new }
{
    let line = name.line;
    if reader.take(TokenKind::LeftParen).is_some() {
        let arguments = arguments(alloc, reader)?;
        reader.expect(TokenKind::Semicolon)?;
        return Ok(Statement::Call {
            name,
            arguments,
            line,
        });
    }
    let place = place(alloc, reader, name)?;
    reader.expect(TokenKind::Becomes)?;
    let value = value(alloc, reader)?;
    Ok(Statement::Assign { place, value, line })
}

/// After a name: an index, or nothing.
fn place(alloc: Global, reader: &mut Reader<'_>, name: Name) -> Result<Place, Fault>
    ensures value { IfOk result (λ found. ReadsPlace weight_limit (identifier name ∷ reader.old) found reader.new) }
    ensures lands { (depth spare : ℕ) → Lands (place_tail ∷ []) reader.old depth spare result reader.new depth weight_limit }
    ensures shorter { length reader.new ≤ length reader.old }
{
    if reader.take(TokenKind::LeftBracket).is_none() {
        return Ok(Place::Name(name));
    }
    let index = expr(alloc, reader)?;
    reader.expect(TokenKind::RightBracket)?;
    Ok(Place::Element { name, index })
}

/// After `(`: expressions with commas between them, or none, and `)`.
fn arguments(alloc: Global, reader: &mut Reader<'_>) -> Result<Items<Expr>, Fault>
    ensures value { IfOk result (λ found. ReadsListed (ReadsOutermost weight_limit) reader.old found reader.new) }
    ensures lands { (depth spare : ℕ) → Lands (listed ∷ []) reader.old depth spare result reader.new depth weight_limit }
    ensures shorter { Consumes reader.old result reader.new }
{
    let mut found = Items::new(alloc);
    if reader.take(TokenKind::RightParen).is_some() {
        return Ok(found);
    }
    found.push(expr(alloc, reader)?)?;
    while reader.take(TokenKind::Comma).is_some() {
        found.push(expr(alloc, reader)?)?;
    }
    reader.expect(TokenKind::RightParen)?;
    Ok(found)
}

/// Two expressions with a comparison between them.
fn condition(alloc: Global, reader: &mut Reader<'_>) -> Result<Condition, Fault>
    ensures value { IfOk result (λ found. ReadsCondition weight_limit reader.old found reader.new) }
    ensures lands { (depth spare : ℕ) → Lands (condition_wanted) reader.old depth spare result reader.new depth weight_limit }
    ensures shorter { Consumes reader.old result reader.new }
{
    let line = reader.line();
    let left = expr(alloc, reader)?;
    let comparison = comparison(reader)?;
    let right = expr(alloc, reader)?;
    Ok(Condition {
        left,
        comparison,
        right,
        line,
    })
}

/// `<`, `<=`, `>`, `>=`, `=` or `<>`
fn comparison(reader: &mut Reader<'_>) -> Result<Comparison, Fault>
    ensures value { ExpectsComparison reader.old result reader.new }
    ensures shorter { Consumes reader.old result reader.new }
{
    let found = if reader.take(TokenKind::Less).is_some() {
        Comparison::Less
    } else if reader.take(TokenKind::LessEqual).is_some() {
        Comparison::LessEqual
    } else if reader.take(TokenKind::Greater).is_some() {
        Comparison::Greater
    } else if reader.take(TokenKind::GreaterEqual).is_some() {
        Comparison::GreaterEqual
    } else if reader.take(TokenKind::Equal).is_some() {
        Comparison::Equal
    } else {
        reader.expect(TokenKind::NotEqual)?;
        Comparison::NotEqual
    };
    Ok(found)
}
