ghost use Rattle.std.specs.Prelude.{◌≡◌, ◌⊎◌, ◌+◌, ◌≤◌, ℕ, ℤ, List, None, Option, false};
ghost use Rattle.moduli_sets.specs.Set.{IsModuliSet, ModuliSet, radius};
ghost use Rattle.fault_book.specs.Book.{Book, is_faulty};
ghost use Rattle.channel_lane.specs.Lane.{LaneState};
ghost use Rattle.channel_lane.specs.Meaning.{integers_at_start};
ghost use Rattle.lane_bank.specs.Bank.{lanes_at_start};
ghost use Rattle.machine_table.specs.declared.instr.Instr.{Instr};
ghost use Rattle.machine_table.specs.Control.{control_at_start};
ghost use Rattle.machine_table.specs.Integers.{integer_run};
ghost use Rattle.shown_run.specs.Decoded.{nearest};
ghost use Rattle.shown_run.specs.Runs.{Decoding, faulty, run_shown};
ghost use Rattle.shown_run.specs.Trace.{Trace, corrections_of, operations_of};
ghost use Rattle.fault_run.specs.FaultRun.{IsFaultRun, IsFirstBad, NoneIsBad, StaysInRange, integer_trace};
ghost use Rattle.fault_run.specs.Moments.{HoldUnnamedThrough, IsDamaged, RunsAs, RunsUpToDamage, ShowsUnnamed};
ghost use Rattle.fault_run.specs.Telling.{TellsEach, TellsNoOther, named_channels};

/// What the nearest integer of a column is, where its channels are wrong: with no more named than the radius, an erased one
/// aside, it is the integer of the column; with one more, and none erased, it is that integer or none.
pub fn decoders_tell()
    ensures each { (set : ModuliSet) (erased : Option ℕ) (book : Book)
        → IsModuliSet set
        → named_channels erased book ≤ radius set
        → TellsEach (nearest (radius set) erased set) set book }
    ensures no_other { (set : ModuliSet) (book : Book)
        → IsModuliSet set
        → named_channels None book ≤ radius set + 1
        → TellsNoOther (nearest (radius set) None set) set book }
{}

/// A finished trace as the lanes perform it, decided column by column, is the fault run: each channel by itself answers the
/// finished list of operations, from the answers come the columns, and the first bad one ends the run.
pub fn fault_runs_go_channel_by_channel()
    ensures { (decode : Decoding) (erased : Option ℕ) (set : ModuliSet) (book : Book) (lanes : List LaneState) (run : Trace)
        → ¬ IsDamaged run
        → IsFaultRun decode book lanes run erased set (faulty decode book run lanes) }
{}

/// Of the columns of a run one is the first bad one, or none is bad.
pub fn first_bad_column()
    ensures { (decode : Decoding) (book : Book) (lanes : List LaneState) (run : Trace)
        → NoneIsBad decode book lanes run ⊎ ((t : ℕ) × IsFirstBad decode book lanes run t) }
{}

/// The run by what is shown is the fault run, where a decoder never tells another integer and no integer of the integer run
/// leaves the range: in its prints, its ending, its operations and its corrections.
pub fn shown_runs_are_fault_runs()
    ensures { (decode : Decoding) (erased : Option ℕ) (set : ModuliSet) (code : List Instr) (words input : List ℤ)
        (book : Book) (n : ℕ)
        → StaysInRange set code words input n
        → TellsNoOther decode set book
        → IsFaultRun decode book (lanes_at_start set 0 words) (integer_trace set code words input n) erased set
        (run_shown decode book set code n (control_at_start input) (lanes_at_start set 0 words)) }
{}

/// So a run prints a front of what the integer run prints, and all of it, with its ending, where no damage stops it.
pub fn faults_cut_runs()
    ensures { (decode : Decoding) (set : ModuliSet) (code : List Instr) (words input : List ℤ) (book : Book) (n : ℕ)
        → StaysInRange set code words input n
        → TellsNoOther decode set book
        → RunsUpToDamage
        (run_shown decode book set code n (control_at_start input) (lanes_at_start set 0 words))
        (integer_run set code words n input) }
{}

/// And where the decoder tells each integer, the run prints and ends as the integer run, after the same operations.
pub fn few_faults_change_nothing()
    ensures run { (decode : Decoding) (set : ModuliSet) (code : List Instr) (words input : List ℤ) (book : Book) (n : ℕ)
        → StaysInRange set code words input n
        → TellsEach decode set book
        → RunsAs
        (run_shown decode book set code n (control_at_start input) (lanes_at_start set 0 words))
        (integer_run set code words n input) }
    ensures operations { (decode : Decoding) (set : ModuliSet) (code : List Instr) (words input : List ℤ) (book : Book)
        (n : ℕ)
        → StaysInRange set code words input n
        → TellsEach decode set book
        → operations_of (run_shown decode book set code n (control_at_start input) (lanes_at_start set 0 words))
        ≡ operations_of (integer_trace set code words input n) }
{}

/// The channels that aren't named stay right: at every moment their lanes hold the residues of the integers; what is shown
/// differs from the vector of the integer that is told in named channels alone; and nothing is corrected in the others.
pub fn unnamed_channels_stay_right()
    ensures hold { (decode : Decoding) (set : ModuliSet) (code : List Instr) (words input : List ℤ) (book : Book) (n : ℕ)
        → StaysInRange set code words input n
        → TellsNoOther decode set book
        → HoldUnnamedThrough set book
        (operations_of (run_shown decode book set code n (control_at_start input) (lanes_at_start set 0 words)))
        (lanes_at_start set 0 words) (integers_at_start words) }
    ensures shown { (decode : Decoding) (set : ModuliSet) (code : List Instr) (words input : List ℤ) (book : Book) (n : ℕ)
        → StaysInRange set code words input n
        → TellsNoOther decode set book
        → ShowsUnnamed set book
        (run_shown decode book set code n (control_at_start input) (lanes_at_start set 0 words)) }
    ensures corrections { (decode : Decoding) (erased : Option ℕ) (set : ModuliSet) (code : List Instr)
        (words input : List ℤ) (book : Book) (n channel : ℕ)
        → StaysInRange set code words input n
        → TellsNoOther decode set book
        → is_faulty book channel ≡ false
        → corrections_of erased set
        (run_shown decode book set code n (control_at_start input) (lanes_at_start set 0 words)) channel ≡ 0 }
{}
