ghost use Rattle.std.specs.Prelude.{◌≡◌};
ghost use Rattle.job_endings.specs.EndingLines.{corrected_line, ending_line, ending_status};

use crate::numbers::with_numbers;
use crate::status::Status;
use moduli_sets::{Counts, Kind, Vector};
use number_text::Line;

/// How a run of a source or an object ends, where nothing outside it fails.
#[derive(Debug, PartialEq, Eq, Drop)]
pub enum Ending {
    /// Its statements or instructions came to their end.
    End,
    /// A trap of a kind, at a line.
    Trap(Kind, u32),
    /// The operation of this number showed this column, which no integer explains.
    Damage(u64, Vector),
    /// It would have gone on past its limit.
    Spent,
}

impl Ending {
    /// The line that tells it.
    pub fn line(&self) -> Line
        ensures { result ≡ ending_line self.now }
    {
        match self {
            Ending::End => Line::of(b"end").end(),
            Ending::Trap(kind, line) => {
                let kind: &[u8] = match kind {
                    Kind::Zero => b"zero",
                    Kind::Range => b"range",
                    Kind::Index => b"index",
                    Kind::InputEnd => b"input-end",
                    Kind::InputRange => b"input-range",
                    Kind::Turns => b"turns",
                    Kind::Stack => b"stack",
                };
                Line::of(b"trap ")
                    .text(kind)
                    .text(b" ")
                    .count(u64::from(*line))
                    .end()
            }
            Ending::Damage(number, column) => {
                with_numbers(Line::of(b"damage ").count(*number).text(b" "), column).end()
            }
            Ending::Spent => Line::of(b"spent").end(),
        }
    }

    /// The status of a job that ends so.
    pub fn status(&self) -> Status
        ensures { result ≡ ending_status self.now }
    {
        match self {
            Ending::End => Status::Ok,
            Ending::Trap(..) => Status::Trap,
            Ending::Damage(..) => Status::Damage,
            Ending::Spent => Status::Spent,
        }
    }
}

/// The line that tells how many columns were corrected in each channel.
pub fn corrected_line(corrected: &Counts) -> Line
    ensures { result ≡ corrected_line corrected.now }
{
    with_numbers(Line::of(b"corrected "), corrected).end()
}
