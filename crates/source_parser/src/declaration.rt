ghost use Rattle.std.specs.Prelude.{ℕ, ◌++◌, ◌≤◌, ◌∷◌, [], IfOk, length};
ghost use Rattle.source_lexer.specs.declared.token.TokenKind.TheVariants.{Array as ArrayToken, Proc as ProcToken, Semicolon as SemicolonToken, Var as VarToken};
ghost use Rattle.source_parser.specs.Limits.{depth_limit, weight_limit};
ghost use Rattle.source_parser.specs.Grammar.{ReadsAll, ReadsBound, ReadsDeclaration, ReadsListed, ReadsLocal, ReadsParam, ReadsRange};
ghost use Rattle.source_parser.specs.Landings.{Lands, LandsNext};
ghost use Rattle.source_parser.specs.Parts.{ReadsNext};
ghost use Rattle.source_parser.specs.Taking.{Consumes, ConsumesNext};
ghost use Rattle.source_parser.specs.Terminals.{fixed};
ghost use Rattle.source_parser.specs.Wants.{array_wanted, bound as wants_bound, declarations as wants_declarations, locals as wants_locals, param_wanted, params as wants_params, proc_wanted, range_wanted, token};

use crate::fault::Fault;
use crate::reader::Reader;
use crate::statement::statements;
use source_lexer::TokenKind;
use source_tree::{Declaration, Local, Param, Range};
use sqlite_items::Items;
use std::alloc::Global;

/// How many of `if`, `for` and `while` may be open at once.
pub const DEPTH_LIMIT: usize = 64;

/// Declarations, as many as stand there.
pub fn declarations(alloc: Global, reader: &mut Reader<'_>) -> Result<Items<Declaration>, Fault>
    ensures value { IfOk result (λ found. ReadsAll (ReadsDeclaration depth_limit weight_limit) reader.old found reader.new) }
    ensures lands { Lands (wants_declarations ∷ []) reader.old depth_limit weight_limit result reader.new depth_limit weight_limit }
    ensures shorter { length reader.new ≤ length reader.old }
{
    let mut found = Items::new(alloc);
    while let Some(next) = declaration(alloc, reader)? {
        found.push(next)?;
    }
    Ok(found)
}

/// A declaration, where one begins.
fn declaration(alloc: Global, reader: &mut Reader<'_>) -> Result<Option<Declaration>, Fault>
    ensures value { ReadsNext (ReadsDeclaration depth_limit weight_limit) reader.old result reader.new }
    ensures lands { LandsNext wants_declarations reader.old depth_limit weight_limit result reader.new }
    ensures shorter { ConsumesNext reader.old result reader.new }
{
    if let Some(line) = reader.take(TokenKind::Var) {
        return Ok(Some(variable(alloc, reader, line)?));
    }
    if let Some(line) = reader.take(TokenKind::Array) {
        return Ok(Some(array(alloc, reader, line)?));
    }
    if let Some(line) = reader.take(TokenKind::Proc) {
        return Ok(Some(procedure(alloc, reader, line)?));
    }
    Ok(None)
}

/// After `var`: `name: range;`
fn variable(alloc: Global, reader: &mut Reader<'_>, line: u32) -> Result<Declaration, Fault>
    ensures value { IfOk result (λ found. ReadsDeclaration depth_limit weight_limit (fixed VarToken line ∷ reader.old) found reader.new) }
    ensures lands { (depth spare : ℕ) → Lands (param_wanted ++ token SemicolonToken ∷ []) reader.old depth spare result reader.new depth weight_limit }
    ensures shorter { Consumes reader.old result reader.new }
{
    let Param { name, range } = param(alloc, reader)?;
    reader.expect(TokenKind::Semicolon)?;
    Ok(Declaration::Var { name, range, line })
}

/// After `array`: `name[length]: range;`
fn array(alloc: Global, reader: &mut Reader<'_>, line: u32) -> Result<Declaration, Fault>
    ensures value { IfOk result (λ found. ReadsDeclaration depth_limit weight_limit (fixed ArrayToken line ∷ reader.old) found reader.new) }
    ensures lands { (depth spare : ℕ) → Lands (array_wanted) reader.old depth spare result reader.new depth weight_limit }
    ensures shorter { Consumes reader.old result reader.new }
{
    let name = reader.expect_name(alloc)?;
    reader.expect(TokenKind::LeftBracket)?;
    let length = reader.expect_number()?;
    reader.expect(TokenKind::RightBracket)?;
    reader.expect(TokenKind::Colon)?;
    let range = range(reader)?;
    reader.expect(TokenKind::Semicolon)?;
    Ok(Declaration::Array {
        name,
        length,
        range,
        line,
    })
}

/// After `proc`: `name(params) locals do statements end`.
fn procedure(alloc: Global, reader: &mut Reader<'_>, line: u32) -> Result<Declaration, Fault>
    ensures value { IfOk result (λ found. ReadsDeclaration depth_limit weight_limit (fixed ProcToken line ∷ reader.old) found reader.new) }
    ensures lands { Lands (proc_wanted) reader.old depth_limit weight_limit result reader.new depth_limit weight_limit }
    ensures shorter { Consumes reader.old result reader.new }
{
    let name = reader.expect_name(alloc)?;
    reader.expect(TokenKind::LeftParen)?;
    let params = params(alloc, reader)?;
    let locals = locals(alloc, reader)?;
    reader.expect(TokenKind::Do)?;
    let body = statements(alloc, reader, DEPTH_LIMIT)?;
    reader.expect(TokenKind::End)?;
    Ok(Declaration::Proc {
        name,
        params,
        locals,
        body,
        line,
    })
}

/// After `(`: parameters with commas between them, or none, and `)`.
fn params(alloc: Global, reader: &mut Reader<'_>) -> Result<Items<Param>, Fault>
    ensures value { IfOk result (λ found. ReadsListed ReadsParam reader.old found reader.new) }
    ensures lands { (depth spare : ℕ) → Lands (wants_params ∷ []) reader.old depth spare result reader.new depth weight_limit }
    ensures shorter { Consumes reader.old result reader.new }
{
    let mut found = Items::new(alloc);
    if reader.take(TokenKind::RightParen).is_some() {
        return Ok(found);
    }
    found.push(param(alloc, reader)?)?;
    while reader.take(TokenKind::Comma).is_some() {
        found.push(param(alloc, reader)?)?;
    }
    reader.expect(TokenKind::RightParen)?;
    Ok(found)
}

/// Locals, as many as stand there.
fn locals(alloc: Global, reader: &mut Reader<'_>) -> Result<Items<Local>, Fault>
    ensures value { IfOk result (λ found. ReadsAll ReadsLocal reader.old found reader.new) }
    ensures lands { (depth : ℕ) → Lands (wants_locals ∷ []) reader.old depth weight_limit result reader.new depth weight_limit }
    ensures shorter { length reader.new ≤ length reader.old }
{
    let mut found = Items::new(alloc);
    while let Some(line) = reader.take(TokenKind::Var) {
        let Param { name, range } = param(alloc, reader)?;
        reader.expect(TokenKind::Semicolon)?;
        found.push(Local { name, range, line })?;
    }
    Ok(found)
}

/// `name: range`
fn param(alloc: Global, reader: &mut Reader<'_>) -> Result<Param, Fault>
    ensures value { IfOk result (λ found. ReadsParam reader.old found reader.new) }
    ensures lands { (depth spare : ℕ) → Lands (param_wanted) reader.old depth spare result reader.new depth weight_limit }
    ensures shorter { Consumes reader.old result reader.new }
{
    let name = reader.expect_name(alloc)?;
    reader.expect(TokenKind::Colon)?;
    let range = range(reader)?;
    Ok(Param { name, range })
}

/// `low..high`
fn range(reader: &mut Reader<'_>) -> Result<Range, Fault>
    ensures value { IfOk result (λ found. ReadsRange reader.old found reader.new) }
    ensures lands { (depth spare : ℕ) → Lands (range_wanted) reader.old depth spare result reader.new depth weight_limit }
    ensures shorter { Consumes reader.old result reader.new }
{
    let low = bound(reader)?;
    reader.expect(TokenKind::Dots)?;
    let high = bound(reader)?;
    Ok(Range { low, high })
}

/// A number, after a minus or without one.
fn bound(reader: &mut Reader<'_>) -> Result<i128, Fault>
    ensures value { IfOk result (λ found. ReadsBound reader.old found reader.new) }
    ensures lands { (depth spare : ℕ) → Lands (wants_bound ∷ []) reader.old depth spare result reader.new depth weight_limit }
    ensures shorter { Consumes reader.old result reader.new }
{
    if reader.take(TokenKind::Minus).is_none() {
        return reader.expect_number();
    }
    let value = reader.expect_number()?;
    Ok(-value)
}
