ghost use Rattle.std.specs.Prelude.{◌≡◌, ◌≤◌, length, slice_range};

/// The kinds of tokens: names, numbers, keywords and symbols, in the order of the grammar.
#[derive(Clone, Copy, Debug, PartialEq, Eq)]
pub enum TokenKind {
    /// A letter, and then letters, digits and `_`, that is no keyword.
    Name,
    /// One or more digits.
    Number,
    /// `var`
    Var,
    /// `array`
    Array,
    /// `proc`
    Proc,
    /// `do`
    Do,
    /// `end`
    End,
    /// `print`
    Print,
    /// `read`
    Read,
    /// `if`
    If,
    /// `then`
    Then,
    /// `else`
    Else,
    /// `for`
    For,
    /// `to`
    To,
    /// `while`
    While,
    /// `limit`
    Limit,
    /// `div`
    Div,
    /// `mod`
    Mod,
    /// `:=`
    Becomes,
    /// `:`
    Colon,
    /// `;`
    Semicolon,
    /// `,`
    Comma,
    /// `(`
    LeftParen,
    /// `)`
    RightParen,
    /// `[`
    LeftBracket,
    /// `]`
    RightBracket,
    /// `..`
    Dots,
    /// `+`
    Plus,
    /// `-`
    Minus,
    /// `*`
    Star,
    /// `<`
    Less,
    /// `<=`
    LessEqual,
    /// `>`
    Greater,
    /// `>=`
    GreaterEqual,
    /// `=`
    Equal,
    /// `<>`
    NotEqual,
}

/// One token: the bytes from `start` up to `end`, places counted from 0, on a line counted from 1.
#[derive(Clone, Copy, Debug)]
pub struct Token {
    pub kind: TokenKind,
    pub start: usize,
    pub end: usize,
    pub line: u32,
}

impl Token {
    /// The bytes of the token in the text that it was found in.
    pub fn bytes<'a>(&self, text: &'a [u8]) -> &'a [u8]
        requires forward { self.now.start ≤ self.now.end }
        requires inside { self.now.end ≤ length text.now }
        ensures { result.now ≡ slice_range text.now self.now.start self.now.end }
    {
        &text[self.start..self.end]
    }
}
