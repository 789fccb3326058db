use crate::programs::parsed;
use source_tree::{Comparison, Declaration, Expr, Name, Operator, Place, Range, Statement};
use std::test::Fail;

/// Declarations, loops and calls, over nine lines.
const JOB: &str = "\
var x: -5..9;
array a[3]:
  0..7;
proc pay(n: 0..9, m:
  -1..1) var k: 2..3;
do k := n; end
for i := 1 to x do read a[i]; end
while x < 8 limit 20 do pay(x,
  -4); end pay(1 div 2, 3); pay();
";

fn is_name(name: &Name, bytes: &[u8], line: u32) -> bool {
    name.bytes.as_slice() == bytes && name.line == line
}

fn is_number(e: &Expr, value: i128, line: u32) -> bool {
    matches!(e, Expr::Number { value: v, line: l } if *v == value && *l == line)
}

fn is_variable(e: &Expr, bytes: &[u8], line: u32) -> bool {
    matches!(e, Expr::Name(name) if is_name(name, bytes, line))
}

fn is_quotient(e: &Expr) -> bool {
    let Expr::Binary {
        left,
        operator: Operator::Div,
        right,
        line: 9,
    } = e
    else {
        return false;
    };
    is_number(left.get(), 1, 9) && is_number(right.get(), 2, 9)
}

fn is_minus_four(e: &Expr) -> bool {
    match e {
        Expr::Neg { operand, line: 9 } => is_number(operand.get(), 4, 9),
        _ => false,
    }
}

/// Whether this is `1 - 2 - 3` from the left, over three lines, with the lines of its nodes.
fn is_left_difference(value: &Expr) -> bool {
    let Expr::Binary {
        left,
        operator: Operator::Sub,
        right,
        line: 3,
    } = value
    else {
        return false;
    };
    matches!(
        left.get(),
        Expr::Binary {
            operator: Operator::Sub,
            line: 2,
            ..
        }
    ) && matches!(right.get(), Expr::Number { value: 3, line: 3 })
}

#[test]
fn sums_and_branches(rt: HostRuntime) -> Result<(), Fail> {
    match parsed(rt.alloc(), "print (1)\n- 2\n- 3;\nif 1 < 2 then else end")? {
        Ok(program) => {
            assert!(rt; program.declarations.is_empty());
            match program.statements.get(0) {
                Some(Statement::Print { value, line: 1 }) => {
                    assert!(rt; is_left_difference(value));
                }
                _ => assert!(rt; false),
            }
            match program.statements.get(1) {
                Some(
                    Statement::If {
                        second,
                        line: 4,
                        ..
                    },
                ) => assert!(rt; second.is_empty()),
                _ => assert!(rt; false),
            }
        }
        Err(_) => assert!(rt; false),
    }
    Ok(())
}

#[test]
fn variables_and_arrays(rt: HostRuntime) -> Result<(), Fail> {
    match parsed(rt.alloc(), JOB)? {
        Ok(program) => {
            assert_eq!(rt; program.declarations.len(), 3);
            match program.declarations.get(0) {
                Some(
                    Declaration::Var {
                        name,
                        range,
                        line: 1,
                    },
                ) => {
                    assert!(rt; is_name(name, b"x", 1));
                    assert_eq!(rt; *range, Range { low: -5, high: 9 });
                }
                _ => assert!(rt; false),
            }
            match program.declarations.get(1) {
                Some(
                    Declaration::Array {
                        name,
                        length: 3,
                        range,
                        line: 2,
                    },
                ) => {
                    assert!(rt; is_name(name, b"a", 2));
                    assert_eq!(rt; *range, Range { low: 0, high: 7 });
                }
                _ => assert!(rt; false),
            }
        }
        Err(_) => assert!(rt; false),
    }
    Ok(())
}

#[test]
fn procedures(rt: HostRuntime) -> Result<(), Fail> {
    match parsed(rt.alloc(), JOB)? {
        Ok(program) => match program.declarations.get(2) {
            Some(
                Declaration::Proc {
                    name,
                    params,
                    locals,
                    body,
                    line: 4,
                },
            ) => {
                assert!(rt; is_name(name, b"pay", 4));
                assert_eq!(rt; params.len(), 2);
                match (params.get(0), params.get(1)) {
                    (Some(first), Some(second)) => {
                        assert!(rt; is_name(&first.name, b"n", 4));
                        assert_eq!(rt; first.range, Range { low: 0, high: 9 });
                        assert!(rt; is_name(&second.name, b"m", 4));
                        assert_eq!(rt; second.range, Range { low: -1, high: 1 });
                    }
                    _ => assert!(rt; false),
                }
                assert_eq!(rt; locals.len(), 1);
                match locals.get(0) {
                    Some(local) => {
                        assert!(rt; is_name(&local.name, b"k", 5));
                        assert_eq!(rt; local.range, Range { low: 2, high: 3 });
                        assert_eq!(rt; local.line, 5);
                    }
                    _ => assert!(rt; false),
                }
                assert_eq!(rt; body.len(), 1);
                match body.get(0) {
                    Some(
                        Statement::Assign {
                            place: Place::Name(name),
                            value,
                            line: 6,
                        },
                    ) => {
                        assert!(rt; is_name(name, b"k", 6));
                        assert!(rt; is_variable(value, b"n", 6));
                    }
                    _ => assert!(rt; false),
                }
            }
            _ => assert!(rt; false),
        },
        Err(_) => assert!(rt; false),
    }
    Ok(())
}

#[test]
fn loops(rt: HostRuntime) -> Result<(), Fail> {
    match parsed(rt.alloc(), JOB)? {
        Ok(program) => {
            match program.statements.get(0) {
                Some(
                    Statement::For {
                        name,
                        first,
                        last,
                        body,
                        line: 7,
                    },
                ) => {
                    assert!(rt; is_name(name, b"i", 7));
                    assert!(rt; is_number(first, 1, 7));
                    assert!(rt; is_variable(last, b"x", 7));
                    assert_eq!(rt; body.len(), 1);
                    match body.get(0) {
                        Some(
                            Statement::Read {
                                place: Place::Element { name, index },
                                line: 7,
                            },
                        ) => {
                            assert!(rt; is_name(name, b"a", 7));
                            assert!(rt; is_variable(index, b"i", 7));
                        }
                        _ => assert!(rt; false),
                    }
                }
                _ => assert!(rt; false),
            }
            match program.statements.get(1) {
                Some(
                    Statement::While {
                        condition,
                        limit: 20,
                        body,
                        line: 8,
                    },
                ) => {
                    assert!(rt; is_variable(&condition.left, b"x", 8));
                    assert_eq!(rt; condition.comparison, Comparison::Less);
                    assert!(rt; is_number(&condition.right, 8, 8));
                    assert_eq!(rt; condition.line, 8);
                    assert_eq!(rt; body.len(), 1);
                }
                _ => assert!(rt; false),
            }
        }
        Err(_) => assert!(rt; false),
    }
    Ok(())
}

/// The arguments of a call of `pay` on this line.
fn arguments_of(statement: Option<&Statement>, on: u32) -> Option<&[Expr]> {
    match statement {
        Some(
            Statement::Call {
                name,
                arguments,
                line,
            },
        ) => (*line == on && is_name(name, b"pay", on)).then_some(arguments.as_slice()),
        _ => None,
    }
}

#[test]
fn calls(rt: HostRuntime) -> Result<(), Fail> {
    match parsed(rt.alloc(), JOB)? {
        Ok(program) => {
            assert_eq!(rt; program.statements.len(), 4);
            match program.statements.get(1) {
                Some(Statement::While { body, .. }) => match arguments_of(body.get(0), 8) {
                    Some([x, minus_four]) => {
                        assert!(rt; is_variable(x, b"x", 8));
                        assert!(rt; is_minus_four(minus_four));
                    }
                    _ => assert!(rt; false),
                },
                _ => assert!(rt; false),
            }
            match arguments_of(program.statements.get(2), 9) {
                Some([quotient, three]) => {
                    assert!(rt; is_quotient(quotient));
                    assert!(rt; is_number(three, 3, 9));
                }
                _ => assert!(rt; false),
            }
            match arguments_of(program.statements.get(3), 9) {
                Some([]) => {}
                _ => assert!(rt; false),
            }
        }
        Err(_) => assert!(rt; false),
    }
    Ok(())
}
