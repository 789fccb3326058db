ghost use Rattle.std.specs.Prelude.{◌≡◌, ◌<◌, ◌≤◌, [], All, IfOk, MatchResult, length};
ghost use Rattle.moduli_sets.specs.Moduli.{set_of};
ghost use Rattle.fault_book.specs.ScheduleText.{AreTurns, IsScheduleFault, turn_of};
ghost use Rattle.fault_book.specs.Turns.{IsTurnOf};
ghost use Rattle.fault_book.specs.declared.schedule.ScheduleFault.TheVariants.{NoMemory};

use moduli_sets::Moduli;
use plain_text::{WHITE_SPACE, digits_len, next_word, number_up_to};
use std::alloc::{AllocFailed, Global};
use std::marker::Model;

/// A turn of control or of a channel.
#[derive(Clone, Copy, Debug, PartialEq, Eq)]
pub enum Turn {
    /// Control issues the next operation to every channel.
    Control,
    /// The channel of this number performs the first operation that waits for it.
    Lane(u8),
}

/// Why a text isn't a schedule for a set.
#[derive(Clone, Copy, Debug, PartialEq, Eq)]
pub enum ScheduleFault {
    /// The word of this number, counted from 1, is neither `C` nor a channel of the set.
    BadTurn(u32),
    /// Memory ran out.
    NoMemory,
}

impl<T: Drop> From<AllocFailed<T>> for ScheduleFault {
    ghost from_gives = { λ _ fault. fault ≡ NoMemory };

    fn from(_failed: AllocFailed<T>) -> Self {
        ScheduleFault::NoMemory
    }
}

/// In what order control and the channels have their turns: a list of turns, each of which is used once.
#[derive(Debug, Drop)]
pub struct Schedule {
    /// None in the schedule that `none` makes, which needs no allocator and takes no memory.
    turns: Option<Vec<Turn>>,
}

impl Model for Schedule {
    ghost use Rattle.std.specs.Prelude.{List};
    ghost use Rattle.fault_book.specs.declared.schedule.Turn.{Turn as TurnValue};
    ghost use Rattle.fault_book.specs.Turns.{turns_kept};

    ghost Value = { List TurnValue };

    ghost view = { λ schedule. turns_kept schedule.turns };
}

impl Schedule {
    /// The schedule without a turn.
    pub fn none() -> Schedule
        ensures { result ≡ [] }
    {
        Schedule { turns: None }
    }

    /// The schedule that a text writes for a set: its words, parted by space, tab, CR and LF, are `C` for a turn of control,
    /// or the number of a channel in decimal digits. BadTurn at the first word that is neither, NoMemory where memory runs
    /// out.
    pub fn read(alloc: Global, set: &Moduli, text: &[u8]) -> Result<Schedule, ScheduleFault>
        requires { length text.now ≤ 4294967294 }
        ensures text { MatchResult result
            (AreTurns (length (set_of set.now).moduli) text.now)
            (IsScheduleFault (length (set_of set.now).moduli) text.now) }
        ensures turns { IfOk result (All (IsTurnOf (length (set_of set.now).moduli))) }
    {
        set.rules();
        let mut turns = Vec::new(alloc);
        let mut place = 0;
        let mut number: u32 = 0;
        while let Some(word) = next_word(text, place, &WHITE_SPACE) {
            number += 1;
            match turn_of(&text[word.start..word.end], set.count()) {
                Some(turn) => turns.push(turn)?,
                None => return Err(ScheduleFault::BadTurn(number)),
            }
            place = word.end;
        }
        Ok(Schedule { turns: Some(turns) })
    }

    /// The turns, in order.
    pub fn turns(&self) -> &[Turn]
        ensures { result.now ≡ self.now }
    {
        match &self.turns {
            Some(turns) => turns,
            None => &[],
        }
    }
}

/// The turn that a word writes, for a set of so many channels.
fn turn_of(word: &[u8], channels: usize) -> Option<Turn>
    requires word { 0 < length word.now }
    requires channels { channels ≤ 12 }
    ensures { result ≡ turn_of channels word.now }
{
    if word == b"C".as_slice() {
        return Some(Turn::Control);
    }
    if digits_len(word) != word.len() {
        return None;
    }
    let channel = number_up_to(word, 255)? as usize;
    (channel < channels).then_some(Turn::Lane(channel as u8))
}
