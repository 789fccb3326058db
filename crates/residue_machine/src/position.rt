ghost use Rattle.std.specs.Prelude.{◌≡◌, ◌+◌, ◌<◌, ◌^◌, [], ◌∷◌, MatchOption, drop, nat_lt, length};
ghost use Rattle.machine_table.specs.Control.{at_place, control_at_start, most_places, next, with_input};
ghost use Rattle.residue_machine.specs.Places.{held_if, holding};

use arrayvec::ArrayVec;
use std::marker::Model;

/// The most return places that are held.
const MOST_PLACES: usize = 64;

/// Where control stands: the number of the instruction that comes next, the return places and the input that is left.
#[derive(Drop)]
pub struct Position {
    counter: u32,
    /// The return places, the one held last at the end.
    places: ArrayVec<u32, MOST_PLACES>,
    input: Vec<i128>,
    /// How many numbers of the input are read.
    read: usize,
}

impl Model for Position {
    ghost use Rattle.std.specs.Prelude.{reverse, drop};
    ghost use Rattle.machine_table.specs.Control.{Control};

    ghost Value = { Control };

    ghost view = { λ p. record { counter = p.counter; places = reverse p.places.items; input = drop p.read p.input.items } };
}

impl Position {
    /// At the first instruction, with no place held and all of the input.
    pub fn at_start(input: Vec<i128>) -> Position
        ensures { result ≡ control_at_start input.items }
    {
        Position {
            counter: 0,
            places: ArrayVec::new(),
            input,
            read: 0,
        }
    }

    /// The number of the instruction that comes next.
    pub fn counter(&self) -> u32
        ensures { result ≡ self.now.counter }
    {
        self.counter
    }

    /// On to the instruction after it.
    pub fn advance(&mut self)
        requires { self.old.counter + 1 < 2 ^ 32 }
        ensures { self.new ≡ next self.old }
    {
        self.counter += 1;
    }

    /// On to an instruction.
    pub fn jump(&mut self, target: u32)
        ensures { self.new ≡ at_place target self.old }
    {
        self.counter = target;
    }

    /// The number of the input that is read next, where one is left.
    pub fn input(&self) -> Option<i128>
        ensures { MatchOption result (self.now.input ≡ []) (λ x. self.now.input ≡ x ∷ drop 1 self.now.input) }
    {
        self.input.get(self.read).copied()
    }

    /// Passes that number.
    pub fn pass_input(&mut self)
        requires { 0 < length self.old.input }
        ensures { self.new ≡ with_input (drop 1 self.old.input) self.old }
    {
        self.read += 1;
    }

    /// Holds the place of the next instruction, unless 64 are held already; whether it does.
    pub fn hold(&mut self) -> bool
        requires { self.old.counter + 1 < 2 ^ 32 }
        ensures held { result ≡ nat_lt (length self.old.places) most_places }
        ensures place { self.new ≡ held_if result self.old }
    {
        if self.places.len() == MOST_PLACES {
            return false;
        }
        self.places.push(self.counter + 1);
        true
    }

    /// Drops the place held last, where one is held, and gives it.
    pub fn release(&mut self) -> Option<u32>
        ensures { MatchOption result
            ((self.old.places ≡ []) × (self.new ≡ self.old))
            (λ place. (self.old.places ≡ place ∷ self.new.places) × (self.new ≡ holding self.new.places self.old)) }
    {
        self.places.pop()
    }
}
