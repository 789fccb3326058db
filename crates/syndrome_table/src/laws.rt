ghost use Rattle.std.specs.Prelude.{◌≡◌, ℕ, List};
ghost use Rattle.moduli_sets.specs.Set.{ModuliSet, IsModuliSet, radius};
ghost use Rattle.syndrome_table.specs.Syndrome.{IsSyndrome};

/// A triple has one channel and one error.
pub fn syndromes_tell_apart()
    ensures { (set : ModuliSet) (triple : List ℕ) (i j e f : ℕ)
        → IsModuliSet set
        → radius set ≡ 1
        → IsSyndrome set triple i e
        → IsSyndrome set triple j f
        → (i ≡ j) × (e ≡ f) }
{}
