ghost use Rattle.moduli_sets.specs.declared.set_name.SetName.TheVariants.{Pocket, Desk, Hall};
ghost use Rattle.moduli_sets.specs.Name.{set_of_name};

use crate::{Bank, Cons, Nil};
use channel_alu::{Ones, Plain, Plus, Power};

/// The bank of the set `pocket`.
pub type PocketBank = Cons<
    Plain<13>,
    Cons<Ones<4>, Cons<Power<4>, Cons<Plus<4>, Cons<Plain<19>, Nil>>>>,
>;

/// The lanes of the redundant moduli 2^K - 1, 2^K and 2^K + 1.
type Redundant<const K: u32> = Cons<Ones<K>, Cons<Power<K>, Cons<Plus<K>, Nil>>>;

/// The bank of the set `desk`.
pub type DeskBank = Cons<
    Plain<239>,
    Cons<Plain<241>, Cons<Plain<247>, Cons<Plain<251>, Cons<Plain<253>, Redundant<8>>>>>,
>;

/// The bank of the set `hall`.
pub type HallBank = Cons<
    Plain<32707>,
    Cons<Plain<32713>, Cons<Plain<32717>, Cons<Plain<32719>, Cons<Plain<32749>, Redundant<15>>>>>,
>;

/// Each bank fits the moduli of its set, as `Bank::make` asks.
pub fn banks_fit_their_sets()
    ensures pocket { ⟦<PocketBank as Bank>⟧.fits (set_of_name Pocket).moduli }
    ensures desk { ⟦<DeskBank as Bank>⟧.fits (set_of_name Desk).moduli }
    ensures hall { ⟦<HallBank as Bank>⟧.fits (set_of_name Hall).moduli }
{}
