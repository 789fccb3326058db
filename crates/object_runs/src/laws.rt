ghost use Rattle.std.specs.Prelude.{◌≡◌, ◌+◌, ◌≤◌, ℕ, ℤ, List, [], None, false, length, replicate};
ghost use Rattle.moduli_sets.specs.Set.{ModuliSet, radius};
ghost use Rattle.fault_book.specs.Book.{Book, fault_at, is_faulty};
ghost use Rattle.lane_bank.specs.Bank.{lanes_at_start};
ghost use Rattle.machine_table.specs.declared.instr.Instr.{Instr};
ghost use Rattle.machine_table.specs.Integers.{integer_run};
ghost use Rattle.shown_run.specs.Decoded.{nearest};
ghost use Rattle.shown_run.specs.Trace.{corrections_of};
ghost use Rattle.fault_run.specs.FaultRun.{IsFaultRun, StaysInRange, integer_trace};
ghost use Rattle.fault_run.specs.Moments.{RunsAs, RunsUpToDamage};
ghost use Rattle.fault_run.specs.Telling.{named_channels};
ghost use Rattle.residue_machine.specs.Machine.{machine_at_start, trace_from};
ghost use Rattle.object_runs.specs.RunText.{TellsIntegers, counts_of, trace_of};

use channel_scheduler::Rack;
use fault_book::laws_of_faults;
use fault_run::{
    decoders_tell, faults_cut_runs, few_faults_change_nothing, shown_runs_are_fault_runs,
    unnamed_channels_stay_right,
};
use redundant_decoder::Decoder;

/// Where no more channels answer wrongly than the radius of the set, and no integer of the integer run leaves the range,
/// what is printed of a run is what the integer machine prints, and its ending. Where none does, the counts are 0.
pub fn runs_as_integers()
    ensures text { (set : ModuliSet) (code : List Instr) (words input : List ℤ) (book : Book) (n : ℕ)
        → StaysInRange set code words input n
        → named_channels None book ≤ radius set
        → TellsIntegers set (trace_of book set code words n input) (integer_run set code words n input) }
    ensures counts { (set : ModuliSet) (code : List Instr) (words input : List ℤ) (book : Book) (n : ℕ)
        → StaysInRange set code words input n
        → ((channel : ℕ) → is_faulty book channel ≡ false)
        → counts_of set (trace_of book set code words n input) ≡ replicate (length set.moduli) 0 }
{
    decoders_tell();
    few_faults_change_nothing();
    unnamed_channels_stay_right();
}

/// Where one more channel answers wrongly, a run is the fault run: it ends with damage at the first column that no integer in
/// range explains. So it prints a front of what the integer machine prints, and all of that, with its ending, where no
/// column is so. In a channel that answers rightly nothing is corrected.
pub fn runs_up_to_damage()
    ensures run { (set : ModuliSet) (code : List Instr) (words input : List ℤ) (book : Book) (n : ℕ)
        → StaysInRange set code words input n
        → named_channels None book ≤ radius set + 1
        → IsFaultRun (nearest (radius set) None set) book (lanes_at_start set 0 words)
        (integer_trace set code words input n) None set (trace_of book set code words n input) }
    ensures front { (set : ModuliSet) (code : List Instr) (words input : List ℤ) (book : Book) (n : ℕ)
        → StaysInRange set code words input n
        → named_channels None book ≤ radius set + 1
        → RunsUpToDamage (trace_of book set code words n input) (integer_run set code words n input) }
    ensures unnamed { (set : ModuliSet) (code : List Instr) (words input : List ℤ) (book : Book) (n channel : ℕ)
        → StaysInRange set code words input n
        → named_channels None book ≤ radius set + 1
        → is_faulty book channel ≡ false
        → corrections_of None set (trace_of book set code words n input) channel ≡ 0 }
{
    decoders_tell();
    shown_runs_are_fault_runs();
    faults_cut_runs();
    unnamed_channels_stay_right();
}

/// These are the runs of every machine that was just loaded: on any rack, with any decoder, with the faults of the rack.
pub fn machines_run_so<R: Rack, D: Decoder>()
    ensures { (set : ModuliSet) (code : List Instr) (words input : List ℤ) (rack : R) (decoder : D) (n : ℕ)
        → R.IsUnderWay rack (lanes_at_start set 0 words) []
        → trace_from R.Rack radius None n (machine_at_start set code words rack decoder input)
        ≡ trace_of (R.book_of rack) set code words n input }
{}

/// So every machine that was just loaded, on a rack without faults, prints and ends as the integer machine, and no column is
/// corrected.
pub fn machines_without_faults<R: Rack, D: Decoder>()
    ensures { (set : ModuliSet) (code : List Instr) (words input : List ℤ) (rack : R) (decoder : D) (n : ℕ)
        → StaysInRange set code words input n
        → R.IsUnderWay rack (lanes_at_start set 0 words) []
        → ((channel number : ℕ) → fault_at (R.book_of rack) channel number ≡ None)
        → RunsAs
        (trace_from R.Rack radius None n (machine_at_start set code words rack decoder input))
        (integer_run set code words n input)
        × (counts_of set (trace_from R.Rack radius None n (machine_at_start set code words rack decoder input))
        ≡ replicate (length set.moduli) 0) }
{
    laws_of_faults();
    decoders_tell();
    few_faults_change_nothing();
    runs_as_integers();
    machines_run_so::<R, D>();
}
