ghost use Rattle.std.specs.Prelude.{◌≡◌, ◌≤◌, ◌<◌, ◌^◌, [], ◌∷◌, All, None, false, length};
ghost use Rattle.moduli_sets.specs.Set.{IsModuliSet, radius};
ghost use Rattle.moduli_sets.specs.Name.{set_of_name};
ghost use Rattle.channel_lane.specs.Meaning.{CanPerform, HasPlace, is_show};
ghost use Rattle.lane_bank.specs.Bank.{lanes_at_start};
ghost use Rattle.machine_table.specs.Objects.{code_of, set_of_object, words_of};
ghost use Rattle.machine_table.specs.Operands.{IsSoundOperand, Shape, operands_of};
ghost use Rattle.machine_table.specs.Faults.{IsSound};
ghost use Rattle.micro_plan.specs.ActTree.{Acts};
ghost use Rattle.micro_plan.specs.Plans.{IsPlanned, most_operations, plan_of};
ghost use Rattle.micro_plan.specs.Stages.{HasPlaces, left_of, most_left, waits};
ghost use Rattle.residue_machine.specs.Bench.{HasSettled, HasShown, IsTold, Performed, channels_at_start};

use channel_alu::{MicroOp, Place};
use channel_scheduler::Rack;
use machine_table::{Instr, Object};
use micro_plan::Plan;
use moduli_sets::{Counts, Moduli, Vector};
use redundant_decoder::{Decoder, Verdict};
use std::marker::Model;

/// What the decoder makes of a column.
#[derive(Debug, Drop)]
pub enum Told {
    /// Its nearest integer.
    Integer(i128),
    /// The column itself, where no integer in range is near.
    Bad(Vector),
}

/// The channels of an object under control: a rack that was made with its data words, a decoder of its set, and what was
/// counted.
pub struct Channels<'o, R: Rack, D: Decoder> {
    object: &'o Object,
    set: Moduli,
    rack: R,
    decoder: D,
    issued: u64,
    corrections: Counts,
}

impl<'o, R: Rack, D: Decoder> Drop for Channels<'o, R, D> {
    fn drop(self) {
        let Channels {
            object: _,
            set: _,
            rack: _,
            decoder: _,
            issued: _,
            corrections: _,
        } = self;
    }
}

impl<'o, R: Rack, D: Decoder> Model for Channels<'o, R, D> {
    ghost use Rattle.std.specs.Prelude.{◌≡◌};
    ghost use Rattle.moduli_sets.specs.Moduli.{set_of};
    ghost use Rattle.moduli_sets.specs.Name.{set_of_name};
    ghost use Rattle.machine_table.specs.Objects.{set_of_object};
    ghost use Rattle.residue_machine.specs.Bench.{Bench, IsBench, bench_of};

    ghost Value = { Bench R D };

    ghost view = { λ c. bench_of (set_of c.set) c.object.now c.rack c.decoder c.issued c.corrections };

    ghost invariant = { λ c. IsBench R.Rack D.Decoder (bench_of (set_of c.set) c.object.now c.rack c.decoder c.issued c.corrections)
        × (set_of c.set ≡ set_of_name (set_of_object c.object.now)) };
}

impl<'o, R: Rack, D: Decoder> Channels<'o, R, D> {
    /// The channels of an object: a rack that was just made with its data words, and a decoder of its set.
    pub fn of(object: &'o Object, rack: R, decoder: D) -> Self
        requires decoder { D.set decoder ≡ set_of_name (set_of_object object.now) }
        requires made { R.IsUnderWay rack (lanes_at_start (set_of_name (set_of_object object.now)) 0 (words_of object.now)) [] }
        ensures { result ≡ channels_at_start (set_of_name (set_of_object object.now)) (code_of object.now) (words_of object.now) rack decoder }
    {
        object.rules();
        let set = Moduli::of(object.set());
        set.rules();
        let mut corrections = Counts::new();
        'channels: for _channel in 0..set.count() {
            corrections.push(0);
        }
        Channels {
            object,
            set,
            rack,
            decoder,
            issued: 0,
            corrections,
        }
    }

    /// Every channel performs what it has left, and the run is over.
    pub fn settle(&mut self)
        ensures { HasSettled R.Rack self.old self.new }
    {
        self.rack.settle();
    }

    /// What the channels keep true.
    pub fn rules(&self)
        ensures set { IsModuliSet self.now.set }
        ensures sound { IsSound self.now.set self.now.code self.now.start }
    {
        let _ = &self.issued;
    }

    /// The plan of an instruction.
    pub fn begin_plan(&self, instr: &Instr) -> Plan
        requires { IsPlanned self.now.set instr.now }
        ensures left { (zero_divisor rest : Acts) → left_of result None zero_divisor rest ≡ plan_of self.now.set instr.now zero_divisor rest }
        ensures waits { waits result ≡ false }
        ensures places { (shape : Shape) → All (IsSoundOperand shape) (operands_of instr.now) → HasPlaces (length self.now.set.moduli) result }
        ensures most { most_left result ≤ most_operations }
    {
        Plan::of(instr, &self.set)
    }

    /// For each channel the columns that were corrected in it.
    pub fn corrections(&self) -> Counts
        ensures { result ≡ self.now.corrections }
    {
        let mut copy = Counts::new();
        'channels: for i in 0..self.corrections.len() {
            copy.push(self.corrections.at(i));
        }
        copy
    }

    /// The rack.
    pub fn rack(&self) -> &R
        ensures { result.now ≡ self.now.rack }
    {
        &self.rack
    }

    /// The decoder.
    pub fn decoder(&self) -> &D
        ensures { result.now ≡ self.now.decoder }
    {
        &self.decoder
    }

    /// The object.
    pub fn object(&self) -> &'o Object
        ensures set { set_of_name (set_of_object result.now) ≡ self.now.set }
        ensures code { code_of result.now ≡ self.now.code }
        ensures words { words_of result.now ≡ self.now.start }
    {
        self.object
    }

    /// How many operations were issued.
    pub fn issued(&self) -> u64
        ensures { result ≡ self.now.issued }
    {
        self.issued
    }

    /// Issues an operation that shows nothing.
    pub fn issue(&mut self, op: MicroOp)
        requires can { CanPerform (length self.old.start) (length self.old.set.moduli) op }
        requires silent { is_show op ≡ false }
        requires room { self.old.issued < 10 ^ 18 }
        ensures { Performed R.Rack R.IsUnderWay (op ∷ []) (λ i. 0) self.old self.new }
    {
        self.rack.issue(op);
        self.issued += 1;
    }

    /// Shows a place; its column.
    fn show(&mut self, place: Place) -> Vector
        requires place { HasPlace (length self.old.start) place }
        requires room { self.old.issued < 10 ^ 18 }
        ensures { HasShown R.Rack place self.old result self.new }
    {
        let column = self.rack.show(place);
        self.issued += 1;
        column
    }

    /// Shows a place to the decoder.
    pub fn ask(&mut self, place: Place) -> Told
        requires place { HasPlace (length self.old.start) place }
        requires room { self.old.issued < 10 ^ 18 }
        ensures { IsTold R.Rack radius None place self.old result self.new }
    {
        let column = self.show(place);
        match self.decoder.decode(&column) {
            Verdict::Clean(x) => Told::Integer(x),
            Verdict::Corrected(x, i) => {
                self.corrections.replace(i, self.corrections.at(i) + 1);
                Told::Integer(x)
            }
            Verdict::Damaged => Told::Bad(column),
        }
    }
}
