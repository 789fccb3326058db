ghost use Rattle.std.specs.Prelude.{◌≡◌, ℕ, suc, ℤ, List, Option};
ghost use Rattle.moduli_sets.specs.Set.{ModuliSet};
ghost use Rattle.channel_alu.specs.declared.operation.Place.{Place};
ghost use Rattle.redundant_decoder.specs.Nearest.{IsNearest};
ghost use Rattle.fault_book.specs.Book.{Book};
ghost use Rattle.channel_lane.specs.Lane.{LaneState};
ghost use Rattle.machine_table.specs.declared.instr.Instr.{Instr};
ghost use Rattle.machine_table.specs.Control.{Control};
ghost use Rattle.machine_table.specs.Integers.{printed_by};
ghost use Rattle.micro_plan.specs.ActTree.{Acts, then_acts};
ghost use Rattle.micro_plan.specs.Told.{integers_by};
ghost use Rattle.shown_run.specs.Decoded.{nearest};
ghost use Rattle.shown_run.specs.Joined.{then_trace};
ghost use Rattle.shown_run.specs.Runs.{Decoding, plain, run_shown, shown, step_shown};
ghost use Rattle.shown_run.specs.Trace.{ends_as, prints_of};

/// `nearest` gives the nearest integer of a vector, for every radius, and for every erased channel and none.
pub fn nearest_is_nearest()
    ensures { (t : ℕ) (erased : Option ℕ) (set : ModuliSet) (v : List ℕ)
        → IsNearest t erased set v (nearest t erased set v) }
{}

/// Acts and then others are shown one after the other; so a run is its first instruction, and then the rest of it from
/// where that left control and the lanes.
pub fn runs_in_parts()
    ensures acts { (decode : Decoding) (book : Book) (acts : Acts) (lanes : List LaneState) (next : Control → Acts)
        → shown decode book (then_acts acts next) lanes
        ≡ then_trace book (shown decode book acts lanes) lanes (λ control after. shown decode book (next control) after) }
    ensures instructions { (decode : Decoding) (book : Book) (set : ModuliSet) (code : List Instr) (n : ℕ)
        (control : Control) (lanes : List LaneState)
        → run_shown decode book set code (suc n) control lanes
        ≡ then_trace book (step_shown decode book set code control lanes) lanes (run_shown decode book set code n) }
{}

/// Acts that are told the integers which are held print and end as the run of the integer machine that they come to.
pub fn plain_is_integer()
    ensures prints { (moduli : List ℕ) (acts : Acts) (at : Place → ℤ)
        → prints_of (plain moduli acts at) ≡ printed_by (integers_by moduli acts at) }
    ensures ending { (moduli : List ℕ) (acts : Acts) (at : Place → ℤ)
        → ends_as (plain moduli acts at) (integers_by moduli acts at) }
{}
