ghost use Rattle.std.specs.Prelude.{◌≡◌, ◌<◌, ◌≤◌, ◌+◌, ◌++◌, length, slice_index};
ghost use Rattle.job_endings.specs.Numbers.{numbers_text};

use moduli_sets::{Counts, Vector};
use number_text::Line;

/// Numbers that a line has room for, such as one for each channel.
pub trait Numbers {
    ghost use Rattle.std.specs.Prelude.{List, ℕ};

    /// The numbers, in order.
    ghost numbers: { Self → List ℕ };

    /// How many there are, at most 12.
    fn count(&self) -> usize
        ensures length { result ≡ length (numbers self.now) }
        ensures few { result ≤ 12 };

    /// Number i of them.
    fn number(&self, i: usize) -> u64
        requires { i < length (numbers self.now) }
        ensures { result ≡ slice_index (numbers self.now) i };
}

impl Numbers for Vector {
    ghost numbers = { λ residues. residues };

    fn count(&self) -> usize {
        self.len()
    }

    fn number(&self, i: usize) -> u64 {
        u64::from(self.at(i))
    }
}

impl Numbers for Counts {
    ghost numbers = { λ counts. counts };

    fn count(&self) -> usize {
        self.len()
    }

    fn number(&self, i: usize) -> u64 {
        self.at(i)
    }
}

/// The line with numbers after it, one space apart: at most 252 bytes.
pub fn with_numbers<N: Numbers>(mut line: Line, numbers: &N) -> Line
    requires { length line ≤ 60 }
    ensures value { result ≡ line ++ numbers_text (N.numbers numbers.now) }
    ensures len { length result ≤ length line + 252 }
{
    for n in 0..numbers.count() {
        if n > 0 {
            line = line.text(b" ");
        }
        line = line.count(numbers.number(n));
    }
    line
}
