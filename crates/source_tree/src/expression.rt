use crate::Name;
use sqlite_items::Boxed;

/// An operator of two integers.
#[derive(Clone, Copy, Debug, PartialEq, Eq)]
pub enum Operator {
    /// left + right
    Add,
    /// left - right
    Sub,
    /// left * right
    Mul,
    /// the floor of left / right
    Div,
    /// left - right * (left div right), which has the sign of right
    Mod,
}

/// An expression. Brackets make no node of their own. The line of a node is that of its number, its name, its minus
/// sign or its operator; a name keeps it.
#[derive(Debug, Drop)]
pub enum Expr {
    /// A number, 0 or more.
    Number {
        value: i128,
        line: u32,
    },
    /// A variable, parameter or local.
    Name(Name),
    /// An element of an array.
    Element {
        name: Name,
        index: Boxed<Expr>,
    },
    /// -operand
    Neg {
        operand: Boxed<Expr>,
        line: u32,
    },
    /// left, an operator, right
    Binary {
        left: Boxed<Expr>,
        operator: Operator,
        right: Boxed<Expr>,
        line: u32,
    },
}

/// A test of two integers.
#[derive(Clone, Copy, Debug, PartialEq, Eq)]
pub enum Comparison {
    Less,
    LessEqual,
    Greater,
    GreaterEqual,
    Equal,
    NotEqual,
}

/// Two expressions with a test between them. The line is that of its first token.
#[derive(Debug, Drop)]
pub struct Condition {
    pub left: Expr,
    pub comparison: Comparison,
    pub right: Expr,
    pub line: u32,
}
