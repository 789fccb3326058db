ghost use Rattle.std.specs.Prelude.{◌≡◌, ℕ, ℤ, List, All, Some, length};
ghost use Rattle.moduli_sets.specs.Set.{IsModuliSet, ModuliSet};
ghost use Rattle.moduli_sets.specs.declared.kind.Kind.TheVariants.{Zero};
ghost use Rattle.channel_alu.specs.declared.operation.Place.{Place};
ghost use Rattle.machine_table.specs.declared.instr.Instr.{Instr};
ghost use Rattle.machine_table.specs.declared.instr.Instr.TheVariants.{Div, Mod};
ghost use Rattle.machine_table.specs.Control.{Control, control_at_start, next, traps};
ghost use Rattle.machine_table.specs.Faults.{IsSound};
ghost use Rattle.machine_table.specs.Integers.{IsFit, integer_run, run_from, step};
ghost use Rattle.machine_table.specs.Operands.{IsSoundOperand, Shape, operands_of};
ghost use Rattle.channel_lane.specs.Meaning.{CanPerform, integers_at_start};
ghost use Rattle.micro_plan.specs.ActTree.{Acts, AllOperations, end_by, go_on};
ghost use Rattle.micro_plan.specs.Acts.{acts_of, acts_of_run};
ghost use Rattle.micro_plan.specs.Division.{quotient_plan_or, remainder_plan_or};
ghost use Rattle.micro_plan.specs.Told.{AreInRange, StayTrue, integers_by, memory_of};

/// Where the integer machine keeps in range, the acts of an instruction that are told the integers held come to what the
/// integer machine says of it; each operation on the way is exact, and leaves integers in range.
pub fn acts_follow_the_integer_machine()
    ensures come { (shape : Shape) (instr : Instr) (control : Control) (at : Place → ℤ)
        → IsModuliSet shape.set
        → All (IsSoundOperand shape) (operands_of instr)
        → AreInRange shape.set at
        → IsFit (step shape.set instr control (memory_of at))
        → integers_by shape.set.moduli (acts_of shape.set instr control) at
        ≡ step shape.set instr control (memory_of at) }
    ensures stay { (shape : Shape) (instr : Instr) (control : Control) (at : Place → ℤ)
        → IsModuliSet shape.set
        → All (IsSoundOperand shape) (operands_of instr)
        → AreInRange shape.set at
        → IsFit (step shape.set instr control (memory_of at))
        → StayTrue shape.set (acts_of shape.set instr control) at }
{}

/// The same of runs of a sound program: from anywhere, and from its start.
pub fn runs_follow_the_integer_machine()
    ensures come { (set : ModuliSet) (code : List Instr) (words : List ℤ) (n : ℕ) (control : Control) (at : Place → ℤ)
        → IsModuliSet set
        → IsSound set code words
        → AreInRange set at
        → IsFit (run_from set code n control (memory_of at))
        → integers_by set.moduli (acts_of_run set code n control) at ≡ run_from set code n control (memory_of at) }
    ensures stay { (set : ModuliSet) (code : List Instr) (words : List ℤ) (n : ℕ) (control : Control) (at : Place → ℤ)
        → IsModuliSet set
        → IsSound set code words
        → AreInRange set at
        → IsFit (run_from set code n control (memory_of at))
        → StayTrue set (acts_of_run set code n control) at }
    ensures start { (set : ModuliSet) (code : List Instr) (words : List ℤ)
        → IsSound set code words
        → AreInRange set (integers_at_start words) }
    ensures come_from_start { (set : ModuliSet) (code : List Instr) (words input : List ℤ) (n : ℕ)
        → IsModuliSet set
        → IsSound set code words
        → IsFit (integer_run set code words n input)
        → integers_by set.moduli (acts_of_run set code n (control_at_start input)) (integers_at_start words)
        ≡ integer_run set code words n input }
    ensures stay_from_start { (set : ModuliSet) (code : List Instr) (words input : List ℤ) (n : ℕ)
        → IsModuliSet set
        → IsSound set code words
        → IsFit (integer_run set code words n input)
        → StayTrue set (acts_of_run set code n (control_at_start input)) (integers_at_start words) }
{}

/// A division that is told the integers held leaves each loop by its own test, before the 128th doing: whatever stood in the
/// place of that doing, it comes to what the integer machine says. So the rule on the 128th doing cuts no plan that is told
/// what is held.
pub fn no_division_is_cut()
    ensures quotient { (set : ModuliSet) (a b c line : ℕ) (other : Acts) (control : Control) (at : Place → ℤ)
        → IsModuliSet set
        → AreInRange set at
        → integers_by set.moduli (quotient_plan_or (Some other) a b c (end_by (traps Zero line)) (go_on (next control))) at
        ≡ step set (Div a b c line) control (memory_of at) }
    ensures remainder { (set : ModuliSet) (a b c line : ℕ) (other : Acts) (control : Control) (at : Place → ℤ)
        → IsModuliSet set
        → AreInRange set at
        → integers_by set.moduli (remainder_plan_or (Some other) a b c (end_by (traps Zero line)) (go_on (next control))) at
        ≡ step set (Mod a b c line) control (memory_of at) }
{}

/// Each operation of an instruction, and of a run of a sound program, can be performed, and each place that is shown
/// exists, whatever is told.
pub fn acts_can_be_performed()
    ensures instruction { (shape : Shape) (instr : Instr) (control : Control)
        → IsModuliSet shape.set
        → All (IsSoundOperand shape) (operands_of instr)
        → AllOperations (CanPerform shape.words (length shape.set.moduli)) (acts_of shape.set instr control) }
    ensures run { (set : ModuliSet) (code : List Instr) (words : List ℤ) (n : ℕ) (control : Control)
        → IsModuliSet set
        → IsSound set code words
        → AllOperations (CanPerform (length words) (length set.moduli)) (acts_of_run set code n control) }
{}
