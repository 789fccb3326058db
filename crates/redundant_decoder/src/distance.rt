ghost use Rattle.std.specs.Prelude.{◌≡◌, ◌≢◌, ℕ, ◌+◌, ◌*◌, ◌<◌, ◌≤◌, ℤ, Bool, List, Option, Some, None, length, Contains, ◌↔◌};
ghost use Rattle.std.specs.List.Sorted.{IsStrictlyIncreasing};
ghost use Rattle.number_theory.specs.Residue.{AreResidues};
ghost use Rattle.moduli_sets.specs.Set.{ModuliSet, IsModuliSet, IsInRange, redundant, radius};
ghost use Rattle.moduli_sets.specs.Vector.{vector_of};
ghost use Rattle.number_theory.specs.Distance.{distance};
ghost use Rattle.redundant_decoder.specs.Nearest.{DifferAt, IsNearest, different_places, part, without};
ghost use Rattle.redundant_decoder.specs.Verdict.{HasInteger, IsVerdict};
ghost use Rattle.redundant_decoder.specs.declared.decoder.Verdict.{Verdict};
ghost use Rattle.redundant_decoder.specs.declared.decoder.Verdict.TheVariants.{Damaged};

/// The places in which two lists differ: those at which other entries stand, an erased one aside. They ascend, and are
/// as many as the distance of the lists without the erased entry.
pub fn places_of_difference()
    ensures are { (erased : Option ℕ) (xs ys : List ℕ) (k : ℕ)
        → length xs ≡ length ys
        → (Contains (different_places erased xs ys) k ↔ DifferAt erased xs ys k) }
    ensures ascending { (erased : Option ℕ) (xs ys : List ℕ) → IsStrictlyIncreasing (different_places erased xs ys) }
    ensures count { (erased : Option ℕ) (xs ys : List ℕ)
        → length (different_places erased xs ys) ≡ distance (without erased xs) (without erased ys) }
{}

/// The distance law. Over any part of the moduli two distinct integers in range agree in fewer places than there are
/// information moduli. So their vectors differ in more places than there are redundant moduli, and in one place less
/// where a channel is erased: at least 4 for three redundant moduli, 6 for five.
pub fn distance_law()
    ensures part { (set : ModuliSet) (keeps : List Bool) (x y : ℤ)
        → IsModuliSet set
        → IsInRange set x
        → IsInRange set y
        → x ≢ y
        → length (part keeps set.moduli) < set.info + distance (vector_of (part keeps set.moduli) x) (vector_of (part keeps set.moduli) y) }
    ensures whole { (set : ModuliSet) (x y : ℤ)
        → IsModuliSet set
        → IsInRange set x
        → IsInRange set y
        → x ≢ y
        → 2 * radius set + 2 ≤ distance (vector_of set.moduli x) (vector_of set.moduli y) }
    ensures erased { (set : ModuliSet) (i : ℕ) (x y : ℤ)
        → IsModuliSet set
        → IsInRange set x
        → IsInRange set y
        → x ≢ y
        → 2 * radius set + 1 ≤ distance (without (Some i) (vector_of set.moduli x)) (without (Some i) (vector_of set.moduli y)) }
{}

/// A vector has one nearest integer at the most within the radius of the set, whether a channel is erased or not.
pub fn nearest_is_the_only_one()
    ensures { (set : ModuliSet) (t : ℕ) (erased : Option ℕ) (v : List ℕ) (x y : ℤ)
        → IsModuliSet set
        → AreResidues set.moduli v
        → t ≤ radius set
        → IsNearest t erased set v (Some x)
        → IsNearest t erased set v (Some y)
        → x ≡ y }
{}

/// What wrong residues lead to, where t of them are corrected, as many as the radius at the most. Where the vector of
/// an integer in range has t wrong residues or fewer, an erased channel aside, the verdict is that integer. With
/// one wrong residue more, and no channel erased, no integer is near, and it is Damaged.
pub fn wrong_residues()
    ensures corrected { (set : ModuliSet) (t : ℕ) (v : List ℕ) (x : ℤ) (verdict : Verdict)
        → IsModuliSet set
        → AreResidues set.moduli v
        → IsInRange set x
        → t ≤ radius set
        → distance (vector_of set.moduli x) v ≤ t
        → IsVerdict t None set v verdict
        → HasInteger verdict x }
    ensures erased { (set : ModuliSet) (t i : ℕ) (v : List ℕ) (x : ℤ) (verdict : Verdict)
        → IsModuliSet set
        → AreResidues set.moduli v
        → IsInRange set x
        → t ≤ radius set
        → distance (without (Some i) (vector_of set.moduli x)) (without (Some i) v) ≤ t
        → IsVerdict t (Some i) set v verdict
        → HasInteger verdict x }
    ensures detected { (set : ModuliSet) (t : ℕ) (v : List ℕ) (x : ℤ) (verdict : Verdict)
        → IsModuliSet set
        → AreResidues set.moduli v
        → IsInRange set x
        → t ≤ radius set
        → distance (vector_of set.moduli x) v ≡ t + 1
        → IsVerdict t None set v verdict
        → verdict ≡ Damaged }
{}
