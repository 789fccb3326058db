ghost use Rattle.std.specs.Prelude.{◌≡◌, ◌+◌, ◌≤◌, ◌<◌, ◌++◌, length};
ghost use Rattle.std.specs.Fmt.{decimal, signed_decimal};
ghost use Rattle.number_text.specs.Lines.{line, room};

use arrayvec::ArrayVec;
use itoa::Buffer;
use std::marker::Model;

/// The most bytes of a line: twelve numbers of 20 digits, and the words of a trap.
const ROOM: usize = 320;

/// A line that is being written, or is: its bytes.
#[derive(Debug, Drop)]
pub struct Line {
    bytes: ArrayVec<u8, ROOM>,
}

impl Model for Line {
    ghost use Rattle.std.specs.Prelude.{List, ℕ};

    ghost Value = { List ℕ };

    ghost view = { λ line. line.bytes.items };
}

impl Line {
    /// A line that begins with a text.
    pub fn of(text: &[u8]) -> Self
        requires { length text.now ≤ room }
        ensures { result ≡ text.now }
    {
        let mut bytes = ArrayVec::new();
        bytes.try_extend_from_slice(text).unwrap();
        Line { bytes }
    }

    /// The line with a text after it.
    pub fn text(mut self, text: &[u8]) -> Self
        requires { length self + length text.now ≤ room }
        ensures value { result ≡ self ++ text.now }
        ensures len { length result ≡ length self + length text.now }
    {
        self.bytes.try_extend_from_slice(text).unwrap();
        self
    }

    /// The line with a count after it, in decimal: at most 20 bytes.
    pub fn count(self, n: u64) -> Self
        requires { length self + 20 ≤ room }
        ensures value { result ≡ self ++ decimal n }
        ensures len { length result ≤ length self + 20 }
    {
        self.text(Buffer::new().format(n).as_bytes())
    }

    /// The line with an integer after it, in decimal: at most 40 bytes.
    pub fn integer(self, x: i128) -> Self
        requires { length self + 40 ≤ room }
        ensures value { result ≡ self ++ signed_decimal x }
        ensures len { length result ≤ length self + 40 }
    {
        self.text(Buffer::new().format(x).as_bytes())
    }

    /// The line with LF at its end.
    pub fn end(mut self) -> Self
        requires { length self < room }
        ensures { result ≡ line self }
    {
        self.bytes.push(b'\n');
        self
    }

    /// The bytes of the line.
    pub fn as_slice(&self) -> &[u8]
        ensures { result.now ≡ self.now }
    {
        self.bytes.as_slice()
    }
}

/// An integer in decimal, and LF.
pub fn line_of(x: i128) -> Line
    ensures { result ≡ line (signed_decimal x) }
{
    Line::of(b"").integer(x).end()
}
