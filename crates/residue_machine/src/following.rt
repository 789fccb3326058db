ghost use Rattle.std.specs.Prelude.{◌≡◌, ◌+◌, ◌≢◌, ◌<◌, ◌≤◌, ◌^◌, None};
ghost use Rattle.moduli_sets.specs.Set.{ModuliSet, radius};
ghost use Rattle.machine_table.specs.declared.instr.Instr.TheVariants.{Call};
ghost use Rattle.machine_table.specs.Integers.{instruction_at};
ghost use Rattle.micro_plan.specs.Acts.{acts_of, read_acts, return_acts};
ghost use Rattle.residue_machine.specs.Outcomes.{ComesTo, control_by};

use crate::channels::Channels;
use crate::ending::Ended;
use crate::interval::lies_in;
use crate::outcome::Outcome;
use crate::position::Position;
use channel_alu::{MicroOp, Place};
use channel_scheduler::Rack;
use machine_table::Instr;
use moduli_sets::Kind;
use redundant_decoder::Decoder;

/// The instruction that comes next. Input that it reads is passed, and places that it holds or drops are; the counter stays,
/// for control to go on by the outcome.
pub fn perform_next<'o, R: Rack, D: Decoder>(
    channels: &mut Channels<'o, R, D>,
    position: &mut Position,
) -> Outcome
    requires room { channels.old.issued + 100000 < 10 ^ 18 }
    ensures issued { channels.new.issued ≤ channels.old.issued + 100000 }
    ensures comes { ComesTo R.Rack radius None (acts_of channels.old.set (instruction_at channels.old.code position.old.counter) position.old) position.new channels.old result channels.new }
    ensures stays { control_by result position.new ≡ None → position.new ≡ position.old }
    ensures counter { position.new.counter ≡ position.old.counter }
    ensures inside { control_by result position.new ≢ None → position.new.counter < 65536 }
{
    channels.rules();
    let code = channels.object().code();
    let counter = position.counter() as usize;
    if counter >= code.len() {
        return Outcome::End(Ended::Halt);
    }
    match code[counter] {
        Instr::In { a, low, high, line } => read_number(channels, position, a, low, high, line),
        Instr::Call { target, line } => call(channels, position, target, line),
        Instr::Ret { line } => go_back(channels, position, line),
        instr => channels.perform(&instr),
    }
}

/// R(a) := the next number of the input, where it lies in low..high.
fn read_number<'o, R: Rack, D: Decoder>(
    channels: &mut Channels<'o, R, D>,
    position: &mut Position,
    a: u8,
    low: i128,
    high: i128,
    line: u32,
) -> Outcome
    requires register { a < 16 }
    requires room { channels.old.issued < 10 ^ 18 }
    ensures issued { channels.new.issued ≤ channels.old.issued + 1 }
    ensures comes { ComesTo R.Rack radius None (read_acts a low high line position.old.input position.old) position.new channels.old result channels.new }
    ensures stays { control_by result position.new ≡ None → position.new ≡ position.old }
    ensures counter { position.new.counter ≡ position.old.counter }
{
    match position.input() {
        None => Outcome::End(Ended::Trap(Kind::InputEnd, line)),
        Some(x) => {
            if lies_in(low, high, x) {
                position.pass_input();
                channels.compute(MicroOp::Put {
                    to: Place::Reg(a),
                    value: x,
                })
            } else {
                Outcome::End(Ended::Trap(Kind::InputRange, line))
            }
        }
    }
}

/// Holds the place of the next instruction, and goes to another.
fn call<'o, R: Rack, D: Decoder>(
    channels: &Channels<'o, R, D>,
    position: &mut Position,
    target: u32,
    line: u32,
) -> Outcome
    requires { position.old.counter + 1 < 2 ^ 32 }
    ensures comes { (set : ModuliSet) → ComesTo R.Rack radius None (acts_of set (Call target line) position.old) position.new channels.now result channels.now }
    ensures stays { control_by result position.new ≡ None → position.new ≡ position.old }
    ensures counter { position.new.counter ≡ position.old.counter }
{
    if position.hold() {
        Outcome::To(target)
    } else {
        Outcome::End(Ended::Trap(Kind::Stack, line))
    }
}

/// Goes to the place held last, and drops it.
fn go_back<'o, R: Rack, D: Decoder>(
    channels: &Channels<'o, R, D>,
    position: &mut Position,
    line: u32,
) -> Outcome
    ensures comes { ComesTo R.Rack radius None (return_acts line position.old.places position.old) position.new channels.now result channels.now }
    ensures stays { control_by result position.new ≡ None → position.new ≡ position.old }
    ensures counter { position.new.counter ≡ position.old.counter }
{
    match position.release() {
        Some(place) => Outcome::To(place),
        None => Outcome::End(Ended::Trap(Kind::Stack, line)),
    }
}
