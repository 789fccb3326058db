ghost use Rattle.std.specs.Prelude.{◌≡◌, ℕ, Bool, List};
ghost use Rattle.job_endings.specs.declared.status.Status.{Status};
ghost use Rattle.rnm_engine.specs.Jobs.{AreAlike, IsExecAnswer, lines};

/// What `exec` prints of a run doesn't depend on the turns: under two schedules, with the journal and without, it is the same
/// up to the lines of the journal, and so is the status.
pub fn schedules_change_no_line()
    ensures { (steps : ℕ) (journal other_journal : Bool) (object input faults schedule other_schedule : List ℕ)
        (pieces others : List (List ℕ)) (status other_status : Status)
        → IsExecAnswer steps journal object input faults schedule (lines pieces status)
        → IsExecAnswer steps other_journal object input faults other_schedule (lines others other_status)
        → AreAlike pieces others status other_status }
{}
