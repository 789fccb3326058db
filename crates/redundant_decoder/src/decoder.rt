ghost use Rattle.std.specs.Prelude.{◌≡◌, ◌≤◌, List, ℕ, Option, None};
ghost use Rattle.number_theory.specs.Residue.{AreResidues};
ghost use Rattle.moduli_sets.specs.Set.{ModuliSet, IsModuliSet, radius};
ghost use Rattle.redundant_decoder.specs.Verdict.{IsVerdict};

use moduli_sets::Vector;

/// What a vector stands for.
#[derive(Clone, Copy, Debug, PartialEq, Eq)]
pub enum Verdict {
    /// It is the vector of this integer in range.
    Clean(i128),
    /// It differs from the vector of this integer in range in this channel, and in no other.
    Corrected(i128, usize),
    /// It differs from the vector of each integer in range in two channels or more.
    Damaged,
}

/// A decoder of the vectors of a set.
pub trait Decoder: Drop {
    /// The set.
    ghost set: { Self → ModuliSet };

    /// The verdict on a vector, which has one residue for each channel, below its modulus. As many wrong residues as
    /// the radius of the set are corrected, and no channel is erased.
    fn decode(&self, v: &Vector) -> Verdict
        requires { AreResidues (set self.now).moduli v.now }
        ensures { IsVerdict (radius (set self.now)) None (set self.now) v.now result };
}

/// A vector has one verdict at the most, whether a channel is erased or not, where no more wrong residues are corrected
/// than the radius of the set.
pub fn one_verdict()
    ensures { (set : ModuliSet) (t : ℕ) (erased : Option ℕ) (v : List ℕ) (a b : Verdict)
        → IsModuliSet set
        → AreResidues set.moduli v
        → t ≤ radius set
        → IsVerdict t erased set v a
        → IsVerdict t erased set v b
        → a ≡ b }
{}
