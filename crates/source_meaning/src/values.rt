ghost use Rattle.std.specs.Prelude.{◌≡◌};
ghost use Rattle.std.specs.Option.{ok_or};
ghost use Rattle.moduli_sets.specs.declared.kind.Kind.TheVariants.{Stack};
ghost use Rattle.source_tree.specs.Run.{and_then};
ghost use Rattle.source_tree.specs.Expression.{operator_result};
ghost use Rattle.source_tree.specs.Statement.{holds};
ghost use Rattle.resolved_tree.specs.Meaning.{kept, value_of, tested};
ghost use Rattle.source_meaning.specs.Follows.{state_of, Computes};
ghost use Rattle.source_meaning.specs.declared.machine.Stop.TheVariants.{Trap};

use crate::division::{floor_quotient, floor_remainder};
use crate::machine::{ELSEWHERE, Machine, Stop};
use moduli_sets::Kind;
use resolved_tree::{Test, Value};
use source_tree::{Comparison, Operator};

impl<'a> Machine<'a> {
    /// The value of an expression.
    pub fn value(&mut self, v: &Value) -> Result<i128, Stop>
        ensures does { Computes (λ size. value_of v.now (state_of self.old)) self.old result self.new }
        ensures held { self.new.held ≡ self.old.held }
    {
        self.visit()?;
        match v {
            Value::Number { value } => Ok(*value),
            Value::Integer { slot } => Ok(self.integer(*slot)),
            Value::Element { slot, index, line } => {
                let at = self.value(index.get())?;
                self.element(*slot, at, *line)
            }
            Value::Neg { operand } => {
                let x = self.value(operand.get())?;
                word(x.checked_neg())
            }
            Value::Binary {
                left,
                operator,
                right,
                line,
            } => {
                let x = self.value(left.get())?;
                let y = self.value(right.get())?;
                self.combined(*operator, x, y, *line)
            }
        }
    }

    /// Whether a condition holds.
    pub fn tested(&mut self, test: &Test) -> Result<bool, Stop>
        ensures { Computes (λ size. tested test.now (state_of self.old)) self.old result self.new }
    {
        self.visit()?;
        let x = self.value(&test.left)?;
        let y = self.value(&test.right)?;
        Ok(holds(test.comparison, x, y))
    }

    /// The result of an operator.
    fn combined(&self, operator: Operator, x: i128, y: i128, line: u32) -> Result<i128, Stop>
        ensures { Computes (λ size. and_then (operator_result operator x y line (state_of self.now)) kept) self.now result self.now }
    {
        match operator {
            Operator::Add => word(x.checked_add(y)),
            Operator::Sub => word(x.checked_sub(y)),
            Operator::Mul => word(x.checked_mul(y)),
            Operator::Div => {
                if y == 0 {
                    Err(Stop::Trap(Kind::Zero, line))
                } else {
                    word(floor_quotient(x, y))
                }
            }
            Operator::Mod => {
                if y == 0 {
                    Err(Stop::Trap(Kind::Zero, line))
                } else {
                    Ok(floor_remainder(x, y))
                }
            }
        }
    }
}

/// Whether a comparison holds.
fn holds(comparison: Comparison, x: i128, y: i128) -> bool
    ensures { result ≡ holds comparison x y }
{
    match comparison {
        Comparison::Less => x < y,
        Comparison::LessEqual => x <= y,
        Comparison::Greater => y < x,
        Comparison::GreaterEqual => y <= x,
        Comparison::Equal => x == y,
        Comparison::NotEqual => x != y,
    }
}

/// An integer goes on where 128 bits hold it; any other leads elsewhere.
fn word(value: Option<i128>) -> Result<i128, Stop>
    ensures { result ≡ ok_or value (Trap Stack 0) }
{
    value.ok_or(ELSEWHERE)
}
