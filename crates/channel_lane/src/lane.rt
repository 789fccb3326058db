ghost use Rattle.std.specs.Prelude.{◌≡◌, ◌+◌, ◌-◌, ◌<◌, ◌^◌, IfOk, length, map, pos, slice_index};
ghost use Rattle.moduli_sets.specs.Moduli.{set_of};
ghost use Rattle.channel_lane.specs.Meaning.{CanPerform, HasPlace, destination};
ghost use Rattle.channel_lane.specs.Lane.{answer_of, held_in, lane_after, lane_at_start, modulus_of, unscaled_value, value_of, with_held};
ghost use Rattle.number_theory.specs.Residue.{residue};

use channel_alu::{Channel, MicroOp, Place};
use fault_book::Faults;
use moduli_sets::{Moduli, residue_of};
use std::alloc::{AllocError, Global};
use std::marker::Model;

/// What one channel holds: 16 registers, 8 scratch places and the data words, each a residue below the modulus
/// of the channel, and how many answers it has given. Its arithmetic is a value, so that the modulus may be known
/// by the type C or only at run time.
pub struct Lane<C: Channel> {
    arithmetic: C,
    set: Moduli,
    channel: usize,
    registers: [u32; 16],
    scratch: [u32; 8],
    words: Vec<u32>,
    answers: u64,
}

impl<C: Channel> Drop for Lane<C> {
    fn drop(self) {
        let Lane {
            arithmetic: _,
            set: _,
            channel: _,
            registers: _,
            scratch: _,
            words: _,
            answers: _,
        } = self;
    }
}

impl<C: Channel> Model for Lane<C> {
    ghost use Rattle.std.specs.Prelude.{◌≡◌, ◌<◌, All, length, slice_index};
    ghost use Rattle.moduli_sets.specs.Moduli.{set_of};
    ghost use Rattle.channel_lane.specs.Lane.{LaneState};
    ghost use Rattle.channel_lane.specs.Invariant.{IsConsistent};

    ghost Value = { LaneState };

    ghost view = { λ lane. record {
      set = set_of lane.set;
      channel = lane.channel;
      registers = lane.registers;
      scratch = lane.scratch;
      words = lane.words.items;
      answers = lane.answers;
    } };

    ghost invariant = { λ lane. IsConsistent (C.modulus lane.arithmetic) (set_of lane.set) lane.channel lane.registers lane.scratch lane.words.items };
}

impl<C: Channel> Lane<C> {
    /// The lane of a channel of the set, which computes by the arithmetic of its modulus: 0 in registers and scratch
    /// places, the residues of `start` in the words. AllocError where memory runs out.
    pub fn make(
        alloc: Global,
        arithmetic: C,
        set: &Moduli,
        channel: usize,
        start: &[i128],
    ) -> Result<Lane<C>, AllocError>
        requires channel { channel < length (set_of set.now).moduli }
        requires modulus { slice_index (set_of set.now).moduli channel ≡ C.modulus arithmetic }
        ensures { IfOk result (λ lane. lane ≡ lane_at_start (set_of set.now) start.now channel) }
    {
        Ok(Lane {
            arithmetic,
            set: *set,
            channel,
            registers: [0; 16],
            scratch: [0; 8],
            words: residues_of(alloc, arithmetic.modulus(), start)?,
            answers: 0,
        })
    }

    /// Performs an operation: the answer is written to its destination, counted, and returned.
    pub fn perform(&mut self, op: &MicroOp, faults: &Faults) -> u32
        requires can { CanPerform (length self.old.words) (length self.old.set.moduli) op.now }
        requires count { self.old.answers < 2 ^ 64 - 1 }
        ensures answer { result ≡ answer_of faults.now op.now self.old }
        ensures lane { self.new ≡ lane_after faults.now op.now self.old }
    {
        let answer = self.answer(op, faults);
        if let Some(to) = destination(op) {
            self.write(to, answer);
        }
        self.answers += 1;
        answer
    }

    /// The residue in a place.
    pub fn held(&self, place: Place) -> u32
        requires { HasPlace (length self.now.words) place }
        ensures value { result ≡ held_in self.now place }
        ensures below { result < modulus_of self.now }
    {
        match place {
            Place::Reg(n) => self.registers[usize::from(n)],
            Place::Scratch(n) => self.scratch[usize::from(n)],
            Place::Word(n) => self.words[n as usize],
        }
    }

    /// How many answers the lane has given.
    pub fn answered(&self) -> u64
        ensures { result ≡ self.now.answers }
    {
        self.answers
    }

    /// The arithmetic of the channel.
    fn arithmetic(&self) -> C
        ensures { C.modulus result ≡ modulus_of self.now }
    {
        self.arithmetic
    }

    /// The modulus of the channel.
    fn modulus(&self) -> u32
        ensures value { result ≡ modulus_of self.now }
        ensures positive { 0 < result }
    {
        self.arithmetic().modulus()
    }

    /// The answer to an operation: its value, or the fault that the book has in its place.
    fn answer(&self, op: &MicroOp, faults: &Faults) -> u32
        requires { CanPerform (length self.now.words) (length self.now.set.moduli) op.now }
        ensures value { result ≡ answer_of faults.now op.now self.now }
        ensures below { result < modulus_of self.now }
    {
        match faults.answer(self.channel, self.answers) {
            Some(fault) => fault % self.modulus(),
            None => self.value(op),
        }
    }

    /// The value of an operation in this channel.
    fn value(&self, op: &MicroOp) -> u32
        requires { CanPerform (length self.now.words) (length self.now.set.moduli) op.now }
        ensures value { result ≡ value_of self.now op.now }
        ensures below { result < modulus_of self.now }
    {
        let arithmetic = self.arithmetic();
        match *op {
            MicroOp::Put { value, .. } => residue_of(value, arithmetic.modulus()),
            MicroOp::Copy { from, .. } => self.held(from),
            MicroOp::Add { left, right, .. } => arithmetic.add(self.held(left), self.held(right)),
            MicroOp::Sub { left, right, .. } => arithmetic.sub(self.held(left), self.held(right)),
            MicroOp::Mul { left, right, .. } => arithmetic.mul(self.held(left), self.held(right)),
            MicroOp::MulAdd {
                left,
                right,
                plus,
                ..
            } => arithmetic.mul_add(self.held(left), self.held(right), self.held(plus)),
            MicroOp::Neg { from, .. } => arithmetic.neg(self.held(from)),
            MicroOp::Unscale {
                from,
                channel,
                take,
                give,
                ..
            } => self.unscaled_residue(self.held(from), usize::from(channel), take, give),
            MicroOp::Show { from } => self.held(from),
        }
    }

    /// What an Unscale by channel s makes of a residue x here: the difference of x and `take`, times the inverse of
    /// the modulus of s; in s itself `give`.
    fn unscaled_residue(&self, x: u32, s: usize, take: u32, give: u32) -> u32
        requires residue { x < modulus_of self.now }
        requires channel { s < length self.now.set.moduli }
        ensures value { result ≡ residue (unscaled_value self.now (pos x) s take give) (modulus_of self.now) }
        ensures below { result < modulus_of self.now }
    {
        let modulus = self.arithmetic.modulus();
        if s == self.channel {
            give % modulus
        } else {
            let inverse = self.set.inverse(s, self.channel);
            self.arithmetic.unscale(x, take % modulus, inverse)
        }
    }

    /// Puts a residue into a place.
    fn write(&mut self, to: Place, x: u32)
        requires place { HasPlace (length self.old.words) to }
        requires below { x < modulus_of self.old }
        ensures { self.new ≡ with_held self.old to x }
    {
        match to {
            Place::Reg(n) => self.registers[usize::from(n)] = x,
            Place::Scratch(n) => self.scratch[usize::from(n)] = x,
            Place::Word(n) => self.words[n as usize] = x,
        }
    }
}

/// The residues of integers, one for each. AllocError where memory runs out.
fn residues_of(alloc: Global, modulus: u32, integers: &[i128]) -> Result<Vec<u32>, AllocError>
    requires { 0 < modulus }
    ensures { IfOk result (λ residues. residues.items ≡ map (λ x. residue x modulus) integers.now) }
{
    let mut residues = Vec::with_capacity(alloc, integers.len())?;
    for x in integers {
        residues.push(residue_of(*x, modulus))?;
    }
    Ok(residues)
}

/// Where an operation writes its answer. A Show writes nothing.
fn destination(op: &MicroOp) -> Option<Place>
    ensures { result ≡ destination op.now }
{
    match *op {
        MicroOp::Put { to, .. }
        | MicroOp::Copy { to, .. }
        | MicroOp::Add { to, .. }
        | MicroOp::Sub { to, .. }
        | MicroOp::Mul { to, .. }
        | MicroOp::MulAdd { to, .. }
        | MicroOp::Neg { to, .. }
        | MicroOp::Unscale { to, .. } => Some(to),
        MicroOp::Show { .. } => None,
    }
}
