ghost use Rattle.std.specs.Prelude.{◌≡◌, ◌≢◌, ◌+◌, ◌<◌, ◌≤◌, ◌^◌, ℤ, List, [], None};
ghost use Rattle.moduli_sets.specs.Set.{ModuliSet, radius};
ghost use Rattle.moduli_sets.specs.Name.{set_of_name};
ghost use Rattle.lane_bank.specs.Bank.{lanes_at_start};
ghost use Rattle.machine_table.specs.Objects.{code_of, set_of_object, words_of};
ghost use Rattle.machine_table.specs.declared.instr.Instr.{Instr as Instruction};
ghost use Rattle.fault_run.specs.FaultRun.{StaysInRange};
ghost use Rattle.fault_run.specs.Telling.{named_channels};
ghost use Rattle.residue_machine.specs.declared.ending.Ending.TheVariants.{SinkFailed};
ghost use Rattle.residue_machine.specs.FaultyRuns.{CameOutByFaults, IsLoaded};
ghost use Rattle.residue_machine.specs.Machine.{IsRun, IsStep, machine_at_start};

use crate::channels::Channels;
use crate::ending::{Ended, Ending, Stepped};
use crate::following::perform_next;
use crate::outcome::Outcome;
use crate::position::Position;
use crate::repeating::end;
use channel_scheduler::Rack;
use fault_run::{decoders_tell, shown_runs_are_fault_runs};
use machine_table::Object;
use moduli_sets::Counts;
use number_text::line_of;
use outside::{Put, Sink};
use redundant_decoder::Decoder;
use std::marker::Model;

/// A program under way on the channels of a rack.
///
/// One instruction after another is performed. What control goes on by are the integers that the decoder finds of the
/// columns that are shown; it knows nothing else of the channels. After an ending each call answers that ending again.
pub struct Machine<'o, R: Rack, D: Decoder> {
    channels: Channels<'o, R, D>,
    position: Position,
    taken: u64,
    ended: Option<Ended>,
}

impl<'o, R: Rack, D: Decoder> Drop for Machine<'o, R, D> {
    fn drop(self) {
        let Machine {
            channels: _,
            position: _,
            taken: _,
            ended: _,
        } = self;
    }
}

impl<'o, R: Rack, D: Decoder> Model for Machine<'o, R, D> {
    ghost use Rattle.residue_machine.specs.Machine.{IsWithinTurns, MachineState, machine_of};

    ghost Value = { MachineState R D };

    ghost view = { λ m. machine_of m.channels m.position m.taken m.ended };

    ghost invariant = { λ m. IsWithinTurns m.channels.issued m.taken };
}

impl<'o, R: Rack, D: Decoder> Machine<'o, R, D> {
    /// A machine at the start of a program. The rack was just made, from a bank with the data words of the object, and the
    /// decoder is of its set. Takes no memory.
    pub fn load(object: &'o Object, rack: R, decoder: D, input: Vec<i128>) -> Machine<'o, R, D>
        requires decoder { D.set decoder ≡ set_of_name (set_of_object object.now) }
        requires settled { R.IsSettled rack }
        requires made { R.IsUnderWay rack (lanes_at_start (set_of_name (set_of_object object.now)) 0 (words_of object.now)) [] }
        ensures { result ≡ machine_at_start (set_of_name (set_of_object object.now)) (code_of object.now) (words_of object.now) rack decoder input.items }
    {
        Machine {
            channels: Channels::of(object, rack, decoder),
            position: Position::at_start(input),
            taken: 0,
            ended: None,
        }
    }

    /// One instruction, after which the rack is settled. After an ending it answers that ending again and changes nothing.
    /// Fewer than 10^12 instructions were performed before. Takes no memory.
    pub fn step(&mut self) -> Stepped
        requires { self.old.taken < 10 ^ 12 }
        ensures step { IsStep R.Rack radius None R.HasEnded self.old result self.new }
        ensures settled { R.IsSettled self.new.channels.rack }
    {
        let stepped = self.go_on();
        self.channels.settle();
        stepped
    }

    /// At most so many further instructions; each print is one put of the number and LF. After an ending it answers that
    /// ending again and puts nothing, with 0 instructions too. After a put that failed the instruction is done, and a later
    /// call goes on after it. Every answer leaves the rack settled. No more than 10^12 instructions are performed in all.
    /// Takes no memory.
    ///
    /// On a machine that was just loaded, where no integer leaves the range and no more channels answer wrongly than one above
    /// the radius of the set, it is the fault run: damage ends it exactly at the first column that no integer in range explains.
    pub fn run<K: Sink>(&mut self, steps: u64, sink: &mut K) -> Ending
        requires { self.old.taken + steps ≤ 10 ^ 12 }
        ensures run { IsRun R.Rack radius None R.HasEnded K.puts K.state steps self.old sink.old result self.new sink.new }
        ensures faults { (set : ModuliSet) (code : List Instruction) (words input : List ℤ)
            → IsLoaded R.Rack set code words input self.old
            → StaysInRange set code words input steps
            → named_channels None (R.book_of self.old.channels.rack) ≤ radius set + 1
            → result ≢ SinkFailed
            → CameOutByFaults R.Rack set code words input R.HasEnded K.puts K.state steps (R.book_of self.old.channels.rack) sink.old result self.new sink.new }
        ensures settled { R.IsSettled self.new.channels.rack }
    {
        decoders_tell();
        shown_runs_are_fault_runs();
        let ending = self.run_on(steps, sink);
        self.channels.settle();
        ending
    }

    /// For each channel the columns that were corrected in it; one that no integer explains isn't counted.
    pub fn corrections(&self) -> Counts
        ensures { result ≡ self.now.channels.corrections }
    {
        self.channels.corrections()
    }

    /// The number of the instruction that comes next. An ending leaves it at the instruction that ended the run.
    pub fn counter(&self) -> u32
        ensures { result ≡ self.now.control.counter }
    {
        self.position.counter()
    }

    /// How many instructions were performed; one that ends the run is.
    pub fn taken(&self) -> u64
        ensures { result ≡ self.now.taken }
    {
        self.taken
    }

    /// The rack.
    pub fn rack(&self) -> &R
        ensures { result.now ≡ self.now.channels.rack }
    {
        self.channels.rack()
    }

    /// The decoder.
    pub fn decoder(&self) -> &D
        ensures { result.now ≡ self.now.channels.decoder }
    {
        self.channels.decoder()
    }

    /// The object that was loaded.
    pub fn object(&self) -> &'o Object
        ensures set { set_of_name (set_of_object result.now) ≡ self.now.channels.set }
        ensures code { code_of result.now ≡ self.now.channels.code }
        ensures words { words_of result.now ≡ self.now.channels.start }
    {
        self.channels.object()
    }

    /// The step, but for the rack, which goes on.
    fn go_on(&mut self) -> Stepped
        requires { self.old.taken < 10 ^ 12 }
        ensures { IsStep R.Rack radius None R.IsUnderWay self.old result self.new }
    {
        if let Some(ended) = &self.ended {
            return ended.stepped();
        }
        let outcome = perform_next(&mut self.channels, &mut self.position);
        self.taken += 1;
        match outcome {
            Outcome::Next => {
                self.position.advance();
                Stepped::On
            }
            Outcome::To(target) => {
                self.position.jump(target);
                Stepped::On
            }
            Outcome::Print(x) => {
                self.position.advance();
                Stepped::Print(x)
            }
            Outcome::End(ended) => end(&mut self.ended, ended),
        }
    }

    /// The run, but for the rack, which goes on.
    fn run_on<K: Sink>(&mut self, steps: u64, sink: &mut K) -> Ending
        requires { self.old.taken + steps ≤ 10 ^ 12 }
        ensures { IsRun R.Rack radius None R.IsUnderWay K.puts K.state steps self.old sink.old result self.new sink.new }
    {
        if let Some(ended) = &self.ended {
            return ended.ending();
        }
        'turns: for _done in 0..steps {
            match self.go_on() {
                Stepped::On => {}
                Stepped::Print(x) => {
                    let line = line_of(x);
                    match sink.put(line.as_slice()) {
                        Put::Done => {}
                        Put::Failed => return Ending::SinkFailed,
                    }
                }
                Stepped::Halt => return Ending::Halt,
                Stepped::Trap(kind, line) => return Ending::Trap(kind, line),
                Stepped::Damage(number, column) => return Ending::Damage(number, column),
            }
        }
        Ending::Spent
    }
}
