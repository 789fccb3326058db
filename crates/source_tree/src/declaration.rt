ghost use Rattle.std.specs.Prelude.{◌≡◌};

use crate::{Name, Range, Statement};
use sqlite_items::Items;

/// A parameter of a procedure. Its line is that of its name.
#[derive(Debug, Drop)]
pub struct Param {
    pub name: Name,
    pub range: Range,
}

/// A local of a procedure. The line is that of its `var`.
#[derive(Debug, Drop)]
pub struct Local {
    pub name: Name,
    pub range: Range,
    pub line: u32,
}

/// What a procedure has variables of its own by: a parameter or a local.
pub trait Variable {
    ghost use Rattle.source_tree.specs.declared.name.Name.{Name};
    ghost use Rattle.source_tree.specs.declared.name.Range.{Range};

    ghost name_of: { Self → Name };

    ghost range_of: { Self → Range };

    fn name(&self) -> &Name
        ensures { result.now ≡ name_of self.now };

    fn range(&self) -> Range
        ensures { result ≡ range_of self.now };
}

impl Variable for Param {
    ghost name_of = { λ p. p.name };

    ghost range_of = { λ p. p.range };

    fn name(&self) -> &Name {
        &self.name
    }

    fn range(&self) -> Range {
        self.range
    }
}

impl Variable for Local {
    ghost name_of = { λ l. l.name };

    ghost range_of = { λ l. l.range };

    fn name(&self) -> &Name {
        &self.name
    }

    fn range(&self) -> Range {
        self.range
    }
}

/// A declaration. Its line is that of its first token.
#[derive(Debug, Drop)]
pub enum Declaration {
    /// var name: range
    Var {
        name: Name,
        range: Range,
        line: u32,
    },
    /// array name[length]: range
    Array {
        name: Name,
        length: i128,
        range: Range,
        line: u32,
    },
    /// proc name(params) locals do body end
    Proc {
        name: Name,
        params: Items<Param>,
        locals: Items<Local>,
        body: Items<Statement>,
        line: u32,
    },
}

/// A source: declarations, and then statements.
#[derive(Debug, Drop)]
pub struct Program {
    pub declarations: Items<Declaration>,
    pub statements: Items<Statement>,
}
