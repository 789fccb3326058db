ghost use Rattle.std.specs.Prelude.{◌≡◌, ℕ, List, [], All, IfOk, length, false, if◌then◌else◌};
ghost use Rattle.channel_alu.specs.declared.operation.MicroOp.{MicroOp as Operation};
ghost use Rattle.fault_book.specs.declared.schedule.Turn.{Turn as TurnValue};
ghost use Rattle.fault_book.specs.Turns.{IsTurnOf};
ghost use Rattle.channel_lane.specs.Lane.{LaneState};
ghost use Rattle.channel_scheduler.specs.Counts.{HasIssued, HasPerformed};
ghost use Rattle.channel_scheduler.specs.Channels.{caught_up, is_behind};
ghost use Rattle.channel_scheduler.specs.Moments.{HasEnded as HasComeToEnd, IsUnderWay as IsOnTheWay, JournalIs, LanesAre};

use crate::channels::Channels;
use crate::{Entry, Rack};
use channel_alu::{MicroOp, Place};
use fault_book::{Faults, Schedule};
use lane_bank::{Bank, stored_in_all};
use moduli_sets::Vector;
use std::alloc::{AllocError, Global};

/// The rack in which each channel has a queue of at most 8 operations, and performs by turns: those of its schedule, in
/// order and each once, and after them rounds of control and of each channel, again and again. A call takes as many
/// turns as it needs. An issue waits for control's next turn at which no backlog is 8; a Show lasts until every channel
/// has performed it.
#[derive(Drop)]
pub struct Scheduled<B: Bank> {
    faults: Faults,
    channels: Channels<B>,
}

impl<B: Bank> Scheduled<B> {
    /// A rack over a bank that was made from channel 0 on and of which no lane has answered yet; each channel of the
    /// schedule is a lane of it. Where `keep` is true the room of the journal is reserved. AllocError where memory runs out.
    pub fn make(
        alloc: Global,
        bank: B,
        faults: Faults,
        schedule: Schedule,
        keep: bool,
    ) -> Result<Scheduled<B>, AllocError>
        requires fresh { All (λ lane. lane.answers ≡ 0) (B.lanes_of bank) }
        requires turns { All (IsTurnOf (length (B.lanes_of bank))) schedule }
        ensures book { IfOk result (λ rack. ⟦<Scheduled<B> as Rack>⟧.book_of rack ≡ faults) }
        ensures lanes { IfOk result (λ rack. ⟦<Scheduled<B> as Rack>⟧.lanes_of rack ≡ B.lanes_of bank) }
        ensures settled { IfOk result (λ rack. ⟦<Scheduled<B> as Rack>⟧.IsSettled rack) }
        ensures under_way { IfOk result (λ rack. ⟦<Scheduled<B> as Rack>⟧.IsUnderWay rack (B.lanes_of bank) []) }
        ensures plan { IfOk result (λ rack. ⟦<Scheduled<B> as Rack>⟧.plan_of rack ≡ (schedule, if keep then 100000 else 0)) }
    {
        Ok(Scheduled {
            faults,
            channels: Channels::make(alloc, bank, schedule, keep)?,
        })
    }

    /// The first 100,000 entries of the journal, in the order in which the operations were performed. Empty where `keep`
    /// was false.
    pub fn journal(&self) -> &[Entry]
        ensures under_way { let rack = ⟦<Scheduled<B> as Rack>⟧ in
            (start : List LaneState) (ops : List Operation)
            → rack.IsUnderWay self.now start ops
            → JournalIs (HasIssued ops) (rack.plan_of self.now) (rack.book_of self.now) start ops result.now }
        ensures ended { let rack = ⟦<Scheduled<B> as Rack>⟧ in
            (start : List LaneState) (ops : List Operation)
            → rack.HasEnded self.now start ops
            → JournalIs (HasPerformed ops) (rack.plan_of self.now) (rack.book_of self.now) start ops result.now }
    {
        self.channels.entries()
    }

    /// The bank as it is now, before the operations that wait in the queues: each lane is that after just those operations
    /// that its channel has performed.
    pub fn bank(&self) -> &B
        ensures under_way { let rack = ⟦<Scheduled<B> as Rack>⟧ in
            (start : List LaneState) (ops : List Operation)
            → rack.IsUnderWay self.now start ops
            → LanesAre (HasIssued ops) (rack.plan_of self.now) (rack.book_of self.now) start ops (B.lanes_of result.now) }
        ensures ended { let rack = ⟦<Scheduled<B> as Rack>⟧ in
            (start : List LaneState) (ops : List Operation)
            → rack.HasEnded self.now start ops
            → LanesAre (HasPerformed ops) (rack.plan_of self.now) (rack.book_of self.now) start ops (B.lanes_of result.now) }
    {
        self.channels.bank()
    }
}

impl<B: Bank> Rack for Scheduled<B> {
    ghost book_of = { λ rack. rack.faults };

    ghost lanes_of = { λ rack. caught_up rack.faults rack.channels.lanes rack.channels.queues };

    ghost Plan = { List TurnValue × ℕ };

    ghost plan_of = { λ rack. (rack.channels.schedule, rack.channels.journal.room) };

    ghost IsSettled = { λ rack. is_behind rack.channels ≡ false };

    ghost IsUnderWay = { λ rack start ops. IsOnTheWay rack.faults rack.channels start ops };

    ghost HasEnded = { λ rack start ops. HasComeToEnd rack.faults rack.channels start ops };

    fn issue(&mut self, op: MicroOp) {
        self.channels.wait(&self.faults);
        self.channels.issue(op);
    }

    fn show(&mut self, place: Place) -> Vector {
        self.channels.wait(&self.faults);
        self.channels.issue(MicroOp::Show { from: place });
        self.channels.drain(&self.faults);
        self.channels.column()
    }

    fn settle(&mut self) {
        self.channels.drain(&self.faults);
    }

    fn peek(&self, place: Place) -> Vector {
        stored_in_all(self.channels.bank(), place)
    }

    ghost lanes_under_way = { λ rack start ops under_way. under_way.lanes };

    ghost lanes_at_end = { λ rack start ops ended. ended.lanes };
}
