ghost use Rattle.std.specs.Prelude.{◌≡◌, ◌≤◌, [], MatchResult, length};
ghost use Rattle.std.specs.FinMap.{from_entries};
ghost use Rattle.moduli_sets.specs.Moduli.{set_of};
ghost use Rattle.fault_book.specs.FaultText.{IsBookFault, book_faults, entries_of};
ghost use Rattle.fault_book.specs.declared.reading.BookFault.TheVariants.{NoMemory};

use crate::faults::Faults;
use crate::line::{Line, line_of, without_return};
use indexmap::IndexMap;
use moduli_sets::Moduli;
use std::alloc::{AllocFailed, Global};

/// Why a text isn't a list of faults for a set. Lines are numbered from 1.
#[derive(Clone, Copy, Debug, PartialEq, Eq)]
pub enum BookFault {
    /// The line has other words than the channel, the number of an answer and a value: decimal digits, up to 2^32 - 1,
    /// 2^64 - 1 and 2^32 - 1.
    BadLine(u32),
    /// The set has no such channel.
    UnknownChannel(u32),
    /// A line before this one has an entry for the same answer.
    Twice(u32),
    /// Memory ran out.
    NoMemory,
}

impl<T: Drop> From<AllocFailed<T>> for BookFault {
    ghost from_gives = { λ _ fault. fault ≡ NoMemory };

    fn from(_failed: AllocFailed<T>) -> Self {
        BookFault::NoMemory
    }
}

impl Faults {
    /// The book that a text writes for a set: its entries, one a line, are a channel, the number of an answer and a value,
    /// parted by spaces and tabs. Lines are parted by LF, and a CR at the end of one counts for nothing; a line that is
    /// blank or begins with `#` is passed over. The first line that breaks a rule is refused, by the first of the rules that
    /// it breaks: BadLine, UnknownChannel, Twice. NoMemory where memory runs out.
    pub fn read(alloc: Global, set: &Moduli, text: &[u8]) -> Result<Faults, BookFault>
        requires { length text.now ≤ 4294967294 }
        ensures { MatchResult result
            (λ faults. (book_faults (length (set_of set.now).moduli) text.now ≡ [])
            × (faults ≡ from_entries (entries_of text.now)))
            (IsBookFault (length (set_of set.now).moduli) text.now) }
    {
        set.rules();
        let mut made = IndexMap::new(alloc);
        let mut named = [false; 12];
        let mut line_number: u32 = 0;
        for line in text.split(|byte| *byte == b'\n') {
            line_number += 1;
            match line_of(without_return(line)) {
                Line::Nothing => {}
                Line::Bad => return Err(BookFault::BadLine(line_number)),
                Line::Entry {
                    channel,
                    number,
                    value,
                } => {
                    if channel as usize >= set.count() {
                        return Err(BookFault::UnknownChannel(line_number));
                    }
                    let old = made.insert((channel as u8, number), value)?;
                    if old.is_some() {
                        return Err(BookFault::Twice(line_number));
                    }
                    named[channel as usize] = true;
                }
            }
        }
        Ok(Faults {
            entries: Some(made),
            named,
        })
    }
}
