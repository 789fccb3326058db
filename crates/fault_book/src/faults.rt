ghost use Rattle.std.specs.Prelude.{◌≡◌, ◌<◌, ℕ, IfOk, All, AllPairs, map};
ghost use Rattle.std.specs.FinMap.{empty, from_entries};
ghost use Rattle.fault_book.specs.Book.{fault_at, faulty_channels, is_faulty};

use indexmap::IndexMap;
use std::alloc::{AllocError, Global};
use std::marker::Model;

/// The most channels that a set has.
const CHANNELS: u8 = 12;

/// Wrong answers of channels: a finite map from the channel and the number of an answer to the value that stands
/// in its place. Answers are numbered from 0 in each channel.
#[derive(Debug, Drop)]
pub struct Faults {
    /// None in the book that `none` makes, which needs no allocator and takes no memory.
    pub(crate) entries: Option<IndexMap<(u8, u64), u32>>,
    /// For each channel whether it may have an entry, so that the others are never looked up.
    pub(crate) named: [bool; 12],
}

impl Model for Faults {
    ghost use Rattle.fault_book.specs.Book.{Book, coded_book};

    ghost Value = { Book };

    ghost coded = { coded_book };

    ghost use Rattle.fault_book.specs.Invariant.{book_of_entries, IsConsistent};

    ghost view = { λ faults. book_of_entries faults.entries };

    ghost invariant = { λ faults. IsConsistent faults.named faults.entries };
}

impl Faults {
    /// The book without entries.
    pub fn none() -> Faults
        ensures { result ≡ empty }
    {
        Faults {
            entries: None,
            named: [false; 12],
        }
    }

    /// The book that has exactly these entries, each a channel, the number of an answer and a value. AllocError where
    /// memory runs out.
    pub fn of_entries(alloc: Global, entries: &[(u8, u64, u32)]) -> Result<Faults, AllocError>
        requires channels { All (λ e. e.0 < 12) entries.now }
        requires different { AllPairs (λ d e. ¬ ((d.0 ≡ e.0) × (d.1 ≡ e.1))) entries.now }
        ensures { IfOk result (λ faults. faults ≡ from_entries (map (λ e. ((e.0, e.1), e.2)) entries.now)) }
    {
        let mut made = IndexMap::new(alloc);
        let mut named = [false; 12];
        for (channel, number, value) in entries {
            made.insert((*channel, *number), *value)?;
            named[usize::from(*channel)] = true;
        }
        Ok(Faults {
            entries: Some(made),
            named,
        })
    }

    /// The value that stands in the place of an answer. None exactly where there is no entry.
    pub fn answer(&self, channel: usize, number: u64) -> Option<u32>
        ensures { result ≡ fault_at self.now channel number }
    {
        let entries = self.entries.as_ref()?;
        if self.named.len() <= channel || !self.named[channel] {
            return None;
        }
        entries.get(&(channel as u8, number)).copied()
    }

    /// Whether the channel has an entry.
    fn is_faulty(&self, channel: u8) -> bool
        ensures { result ≡ is_faulty self.now channel }
    {
        match &self.entries {
            Some(entries) => entries.keys().any(|answer| answer.0 == channel),
            None => false,
        }
    }

    /// How many different channels have an entry.
    pub fn channels(&self) -> usize
        ensures { result ≡ faulty_channels self.now }
    {
        (0..CHANNELS)
            .filter(|channel| self.is_faulty(*channel))
            .count()
    }
}
