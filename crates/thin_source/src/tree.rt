//! The tree of a thin source. Names are slices of the source text.

/// A number or a name.
#[derive(Clone, Copy, Debug)]
pub enum Atom<'a> {
    Number(u128),
    Name(&'a [u8]),
}

/// Factors, from left to right.
#[derive(Debug, Drop)]
pub struct Product<'a> {
    pub first: Atom<'a>,
    pub more: Vec<Atom<'a>>,
}

/// How a term joins a sum.
#[derive(Clone, Copy, Debug)]
pub enum Sign {
    Plus,
    Minus,
}

/// Terms, from left to right.
#[derive(Debug, Drop)]
pub struct Sum<'a> {
    pub first: Product<'a>,
    pub more: Vec<(Sign, Product<'a>)>,
}

/// An assignment or a print.
#[derive(Debug, Drop)]
pub enum Statement<'a> {
    /// `name := sum;`
    Assign(&'a [u8], Sum<'a>),
    /// `print sum;`
    Print(Sum<'a>),
}

/// `var name: low..high;`
#[derive(Clone, Copy, Debug)]
pub struct Declaration<'a> {
    pub name: &'a [u8],
    pub low: i128,
    pub high: i128,
}

/// A thin source.
#[derive(Debug, Drop)]
pub struct Program<'a> {
    pub declarations: Vec<Declaration<'a>>,
    pub statements: Vec<Statement<'a>>,
}
