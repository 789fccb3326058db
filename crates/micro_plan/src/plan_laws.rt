ghost use Rattle.std.specs.Prelude.{◌+◌, ◌<◌, ℕ};
ghost use Rattle.moduli_sets.specs.Set.{ModuliSet};
ghost use Rattle.machine_table.specs.declared.instr.Instr.{Instr};
ghost use Rattle.micro_plan.specs.ActTree.{Acts};
ghost use Rattle.micro_plan.specs.Plans.{EndsWithin, most_operations, plan_of};

/// A plan ends, whatever is told: after at most 81,674 operations and Shows comes what follows it.
pub fn plans_end()
    ensures within { (set : ModuliSet) (instr : Instr) (zero_divisor rest : Acts) (n : ℕ)
        → EndsWithin n zero_divisor
        → EndsWithin n rest
        → EndsWithin (most_operations + n) (plan_of set instr zero_divisor rest) }
    ensures fewer { most_operations < 100000 }
{}
