//! The rules that a thin source keeps besides its grammar: names, ranges, and intervals of expressions.
ghost use Rattle.std.specs.Prelude.{◌≡◌, true, List, map, IsTrue, ◌↔◌, IfSome};
ghost use Rattle.std.specs.List.{list_all};
ghost use Rattle.thin_source.specs.Interval as interval;
ghost use Rattle.thin_source.specs.ThinRules as rules;
ghost use Rattle.thin_source.specs.ThinRules.{pocket_range, IsLawful};
ghost use Rattle.thin_source.specs.ThinView.{atom_view, product_view, sign_view, sum_view, statement_view, declaration_view, program_view};

use super::tree::{Atom, Declaration, Product, Program, Sign, Statement, Sum};
use crate::interval::Interval;

/// The range of `pocket`.
const POCKET: Interval = Interval { low: -97, high: 97 };

/// Whether the inner interval has an integer, and each of them lies in the outer one.
fn is_within(inner: Interval, outer: Interval) -> bool
    ensures { result ≡ interval.is_within inner outer }
{
    outer.low <= inner.low && inner.low <= inner.high && inner.high <= outer.high
}

/// An interval, where it is within the range of `pocket`.
fn fitting(interval: Interval) -> Option<Interval>
    ensures { result ≡ rules.fitting interval }
{
    if is_within(interval, POCKET) {
        Some(interval)
    } else {
        None
    }
}

/// The products of an integer of each interval lie in this one.
fn interval_product(i: Interval, j: Interval) -> Interval
    requires left { interval.is_within i pocket_range ≡ true }
    requires right { interval.is_within j pocket_range ≡ true }
    ensures { result ≡ interval.interval_product i j }
{
    let (a, b) = (i.low * j.low, i.low * j.high);
    let (c, d) = (i.high * j.low, i.high * j.high);
    Interval {
        low: a.min(b).min(c.min(d)),
        high: a.max(b).max(c.max(d)),
    }
}

/// The sums or differences of an integer of each interval lie in this one.
fn joined_interval(sign: Sign, i: Interval, j: Interval) -> Interval
    requires left { interval.is_within i pocket_range ≡ true }
    requires right { interval.is_within j pocket_range ≡ true }
    ensures { result ≡ rules.joined_interval (sign_view sign) i j }
{
    match sign {
        Sign::Plus => Interval {
            low: i.low + j.low,
            high: i.high + j.high,
        },
        Sign::Minus => Interval {
            low: i.low - j.high,
            high: i.high - j.low,
        },
    }
}

/// The range of a declaration.
fn declared_interval(declaration: &Declaration) -> Interval
    ensures { result ≡ rules.declared_interval (declaration_view declaration.now) }
{
    Interval {
        low: declaration.low,
        high: declaration.high,
    }
}

/// The declared range of a name.
fn range_of(declarations: &[Declaration], name: &[u8]) -> Option<Interval>
    ensures { result ≡ rules.range_of (map declaration_view declarations.now) name.now }
{
    for declaration in declarations {
        if declaration.name == name {
            return Some(declared_interval(declaration));
        }
    }
    None
}

/// The interval of a number or a name, where the name is declared and the interval fits.
fn atom_interval(declarations: &[Declaration], atom: &Atom) -> Option<Interval>
    ensures { result ≡ rules.atom_interval (map declaration_view declarations.now) (atom_view atom.now) }
{
    match *atom {
        Atom::Number(n) => {
            let n = i128::try_from(n).ok()?;
            fitting(Interval { low: n, high: n })
        }
        Atom::Name(name) => fitting(range_of(declarations, name)?),
    }
}

/// The interval of a product, where each of its nodes fits.
fn product_interval(declarations: &[Declaration], product: &Product) -> Option<Interval>
    ensures value { result ≡ rules.product_interval (map declaration_view declarations.now) (product_view product.now) }
    ensures within { IfSome result (λ i. interval.is_within i pocket_range ≡ true) }
{
    let mut interval = atom_interval(declarations, &product.first)?;
    for atom in &product.more {
        let factor = atom_interval(declarations, atom)?;
        interval = fitting(interval_product(interval, factor))?;
    }
    Some(interval)
}

/// The interval of a sum, where each of its nodes fits.
fn sum_interval(declarations: &[Declaration], sum: &Sum) -> Option<Interval>
    ensures { result ≡ rules.sum_interval (map declaration_view declarations.now) (sum_view sum.now) }
{
    let mut interval = product_interval(declarations, &sum.first)?;
    for (sign, product) in &sum.more {
        let term = product_interval(declarations, product)?;
        interval = fitting(joined_interval(*sign, interval, term))?;
    }
    Some(interval)
}

/// Whether the inner interval is there and within the outer one, which is there too.
fn is_some_within(inner: Option<Interval>, outer: Option<Interval>) -> bool
    ensures { result ≡ rules.is_some_within inner outer }
{
    match (inner, outer) {
        (Some(inner), Some(outer)) => is_within(inner, outer),
        _ => false,
    }
}

/// Whether a statement's expression has an interval that fits what it is for.
fn is_lawful_statement(declarations: &[Declaration], statement: &Statement) -> bool
    ensures { result ≡ rules.is_lawful_statement (map declaration_view declarations.now) (statement_view statement.now) }
{
    match statement {
        Statement::Print(sum) => is_some_within(sum_interval(declarations, sum), Some(POCKET)),
        Statement::Assign(name, sum) => {
            is_some_within(
                sum_interval(declarations, sum),
                range_of(declarations, name),
            )
        }
    }
}

/// Whether a low bound is at most its high bound, and both are in the range of `pocket`.
fn is_range(declaration: &Declaration) -> bool
    ensures { result ≡ rules.is_range (declaration_view declaration.now) }
{
    is_within(declared_interval(declaration), POCKET)
}

/// Whether no name is declared twice.
fn are_distinct(declarations: &[Declaration]) -> bool
    ensures { result ≡ rules.are_distinct (map declaration_view declarations.now) }
{
    let mut rest = declarations;
    while let [first, more @ ..] = rest {
        if range_of(more, first.name).is_some() {
            return false;
        }
        rest = more;
    }
    true
}

/// Whether each declared range is one of `pocket`.
fn are_ranges(declarations: &[Declaration]) -> bool
    ensures { result ≡ list_all rules.is_range (map declaration_view declarations.now) }
{
    declarations.iter().all(is_range)
}

/// Whether each statement is lawful.
fn are_lawful(declarations: &[Declaration], statements: &[Statement]) -> bool
    ensures { result ≡ list_all (rules.is_lawful_statement (map declaration_view declarations.now)) (map statement_view statements.now) }
{
    statements
        .iter()
        .all(|statement| is_lawful_statement(declarations, statement))
}

/// Whether a program keeps all rules.
pub fn is_lawful(program: &Program) -> bool
    ensures { IsTrue result ↔ IsLawful (program_view program.now) }
{
    let declarations = program.declarations.as_slice();
    let statements = program.statements.as_slice();
    are_ranges(declarations) && are_distinct(declarations) && are_lawful(declarations, statements)
}
