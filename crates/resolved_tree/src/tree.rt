use crate::slot::Slot;
use source_tree::{Comparison, Operator, Range};
use sqlite_items::{Boxed, Items};

/// An expression. The line is the one that a trap in its node tells.
#[derive(Debug, Drop)]
pub enum Value {
    Number {
        value: i128,
    },
    /// The integer of a variable, parameter or local.
    Integer {
        slot: Slot,
    },
    Element {
        slot: Slot,
        index: Boxed<Value>,
        line: u32,
    },
    Neg {
        operand: Boxed<Value>,
    },
    Binary {
        left: Boxed<Value>,
        operator: Operator,
        right: Boxed<Value>,
        line: u32,
    },
}

/// A condition.
#[derive(Debug, Drop)]
pub struct Test {
    pub left: Value,
    pub comparison: Comparison,
    pub right: Value,
}

/// A place that an integer is put into.
#[derive(Debug, Drop)]
pub enum Target {
    Integer { slot: Slot },
    /// An element. The line is that of the array's name.
    Element { slot: Slot, index: Value, line: u32 },
}

/// An argument of a call, with the range of its parameter.
#[derive(Debug, Drop)]
pub struct Argument {
    pub value: Value,
    pub range: Range,
}

/// A statement.
#[derive(Debug, Drop)]
pub enum Step {
    Assign {
        target: Target,
        value: Value,
        line: u32,
    },
    Print {
        value: Value,
    },
    Read {
        target: Target,
        line: u32,
    },
    If {
        test: Test,
        first: Items<Step>,
        second: Items<Step>,
    },
    For {
        slot: Slot,
        first: Value,
        last: Value,
        body: Items<Step>,
        line: u32,
    },
    While {
        test: Test,
        limit: i128,
        body: Items<Step>,
        line: u32,
    },
    /// A call of the procedure of a number.
    Call {
        procedure: u32,
        arguments: Items<Argument>,
        line: u32,
    },
    /// A call of what is no procedure.
    Skip,
}

/// A procedure. Its parameters have the numbers after its own, and its locals those after them.
#[derive(Debug, Drop)]
pub struct Procedure {
    pub number: u32,
    /// How many parameters it has.
    pub params: u32,
    /// The integers at which its locals start.
    pub locals: Items<i128>,
    pub body: Items<Step>,
}

/// A source with its names resolved.
#[derive(Debug, Drop)]
pub struct Resolved {
    /// All that is declared, parameters and locals too, each at its number.
    pub slots: Items<Slot>,
    /// In text order.
    pub procedures: Items<Procedure>,
    pub steps: Items<Step>,
}
