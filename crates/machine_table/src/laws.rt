ghost use Rattle.machine_table.specs.Laws.{FaultlessAreSound, SoundAreFaultless};

/// The sound programs are those that have no fault.
pub fn sound_programs_have_no_fault()
    ensures faultless { FaultlessAreSound }
    ensures sound { SoundAreFaultless }
{}
