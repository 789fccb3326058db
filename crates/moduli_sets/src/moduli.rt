ghost use Rattle.std.specs.Prelude.{◌≡◌, ◌≢◌, ◌<◌, ℤ, pos, length, slice_index, true};
ghost use Rattle.number_theory.specs.Coprime.{IsInverse, inverse_of};
ghost use Rattle.number_theory.specs.Residue.{residue};
ghost use Rattle.moduli_sets.specs.Invariant.{is_consistent};
ghost use Rattle.moduli_sets.specs.Set.{IsInRange, IsModulus, IsModuliSet, information, radius, range_bound};
ghost use Rattle.moduli_sets.specs.Vector.{vector_of};

use crate::{SetName, Vector};

/// The largest number of channels.
const ROOM: usize = 12;

/// A set of moduli. Each value meets all rules of a set and corrects one wrong residue.
#[derive(Clone, Copy, Debug)]
pub struct Moduli {
    /// The moduli, `count` of them and then zeros.
    moduli: [u32; ROOM],
    count: usize,
    info: usize,
    /// Row s has at i the inverse of modulus s modulo modulus i.
    inverses: [[u32; ROOM]; ROOM],
    bound: i128,
    ghost consistent: { is_consistent moduli count info inverses bound ≡ true },
}

impl Moduli {
    ghost use Rattle.moduli_sets.specs.Moduli.{set_of};
    ghost use Rattle.moduli_sets.specs.Name.{set_of_name};
    ghost use Rattle.moduli_sets.specs.declared.set_name.SetName.TheVariants.{Pocket, Desk, Hall};

    /// The set of the table that has this name.
    pub fn of(name: SetName) -> Moduli
        ensures { set_of result ≡ set_of_name name }
    {
        match name {
            SetName::Pocket => Moduli::pocket(),
            SetName::Desk => Moduli::desk(),
            SetName::Hall => Moduli::hall(),
        }
    }

    #[tactic(auto, unfolding(crate::specs::Invariant::is_consistent))]
    fn pocket() -> Moduli
        ensures { set_of result ≡ set_of_name Pocket }
    {
        Moduli {
            moduli: [13, 15, 16, 17, 19, 0, 0, 0, 0, 0, 0, 0],
            count: 5,
            info: 2,
            inverses: [
                [0, 7, 5, 4, 3, 0, 0, 0, 0, 0, 0, 0],
                [7, 0, 15, 8, 14, 0, 0, 0, 0, 0, 0, 0],
                [9, 1, 0, 16, 6, 0, 0, 0, 0, 0, 0, 0],
                [10, 8, 1, 0, 9, 0, 0, 0, 0, 0, 0, 0],
                [11, 4, 11, 9, 0, 0, 0, 0, 0, 0, 0, 0],
                [0; ROOM],
                [0; ROOM],
                [0; ROOM],
                [0; ROOM],
                [0; ROOM],
                [0; ROOM],
                [0; ROOM],
            ],
            bound: 97,
        }
    }

    #[tactic(auto, unfolding(crate::specs::Invariant::is_consistent))]
    fn desk() -> Moduli
        ensures { set_of result ≡ set_of_name Desk }
    {
        Moduli {
            moduli: [239, 241, 247, 251, 253, 255, 256, 257, 0, 0, 0, 0],
            count: 8,
            info: 5,
            inverses: [
                [0, 120, 216, 230, 18, 239, 15, 157, 0, 0, 0, 0],
                [120, 0, 41, 25, 21, 91, 17, 16, 0, 0, 0, 0],
                [30, 201, 0, 188, 42, 223, 199, 77, 0, 0, 0, 0],
                [20, 217, 62, 0, 126, 191, 51, 214, 0, 0, 0, 0],
                [222, 221, 206, 126, 0, 127, 85, 64, 0, 0, 0, 0],
                [15, 155, 31, 63, 127, 0, 255, 128, 0, 0, 0, 0],
                [225, 225, 55, 201, 169, 1, 0, 256, 0, 0, 0, 0],
                [93, 226, 173, 42, 190, 128, 1, 0, 0, 0, 0, 0],
                [0; ROOM],
                [0; ROOM],
                [0; ROOM],
                [0; ROOM],
            ],
            bound: 451727098179,
        }
    }

    #[tactic(auto, unfolding(crate::specs::Invariant::is_consistent))]
    fn hall() -> Moduli
        ensures { set_of result ≡ set_of_name Hall }
    {
        Moduli {
            moduli: [
                32707, 32713, 32717, 32719, 32749, 32767, 32768, 32769, 0, 0, 0, 0,
            ],
            count: 8,
            info: 5,
            inverses: [
                [0, 5452, 9815, 19086, 14815, 23483, 26859, 24841, 0, 0, 0, 0],
                [27256, 0, 8179, 5453, 11826, 29733, 19065, 14629, 0, 0, 0, 0],
                [22895, 24535, 0, 16359, 5117, 1966, 1285, 18275, 0, 0, 0, 0],
                [
                    13628, 27261, 16359, 0, 20741, 21162, 10031, 19006, 0, 0, 0, 0,
                ],
                [
                    17911, 20900, 27605, 11997, 0, 23665, 13797, 14746, 0, 0, 0, 0,
                ],
                [9267, 3029, 30754, 11588, 9097, 0, 32767, 16384, 0, 0, 0, 0],
                [5898, 13680, 31434, 22703, 18960, 1, 0, 32768, 0, 0, 0, 0],
                [7913, 18109, 14471, 13742, 18012, 16384, 1, 0, 0, 0, 0, 0],
                [0; ROOM],
                [0; ROOM],
                [0; ROOM],
                [0; ROOM],
            ],
            bound: 18754376393575156082078,
        }
    }

    /// Each value is a set: its numbers meet all rules, and it corrects one wrong residue.
    pub fn rules(&self)
        ensures set { IsModuliSet (set_of self.now) }
        ensures radius { radius (set_of self.now) ≡ 1 }
    {}

    /// Two integers in range are equal where the residues for the information moduli are, and so where
    /// all residues are.
    pub fn tells_apart(&self)
        ensures information { (x y : ℤ)
            → IsInRange (set_of self.now) x
            → IsInRange (set_of self.now) y
            → vector_of (information (set_of self.now)) x ≡ vector_of (information (set_of self.now)) y
            → x ≡ y }
        ensures all { (x y : ℤ)
            → IsInRange (set_of self.now) x
            → IsInRange (set_of self.now) y
            → vector_of (set_of self.now).moduli x ≡ vector_of (set_of self.now).moduli y
            → x ≡ y }
    {}

    /// The number of channels, 4 to 12.
    pub fn count(&self) -> usize
        ensures { result ≡ length (set_of self.now).moduli }
    {
        self.count
    }

    /// The number of information moduli, which come first.
    pub fn info(&self) -> usize
        ensures { result ≡ (set_of self.now).info }
    {
        self.info
    }

    /// B, the greatest integer in range; the least is -B.
    pub fn bound(&self) -> i128
        ensures { result ≡ pos (range_bound (set_of self.now)) }
    {
        self.bound
    }

    /// The modulus of channel i.
    pub fn modulus(&self, i: usize) -> u32
        requires { i < length (set_of self.now).moduli }
        ensures value { result ≡ slice_index (set_of self.now).moduli i }
        ensures modulus { IsModulus result }
    {
        self.moduli[i]
    }

    /// The inverse of modulus s modulo modulus i: the number below modulus i whose product with modulus s has the
    /// remainder 1 there.
    pub fn inverse(&self, s: usize, i: usize) -> u32
        requires differ { s ≢ i }
        requires s_in { s < length (set_of self.now).moduli }
        requires i_in { i < length (set_of self.now).moduli }
        ensures inverse { IsInverse (slice_index (set_of self.now).moduli s)
            (slice_index (set_of self.now).moduli i) result }
        ensures value { result ≡ inverse_of (slice_index (set_of self.now).moduli s)
            (slice_index (set_of self.now).moduli i) }
    {
        self.inverses[s][i]
    }

    /// The vector of x: its residues, one for each channel, each below its modulus.
    pub fn residues_of(&self, x: i128) -> Vector
        requires { IsInRange (set_of self.now) x }
        ensures { result ≡ vector_of (set_of self.now).moduli x }
    {
        let mut vector = Vector::new();
        for i in 0..self.count() {
            vector.push(residue_of(x, self.modulus(i)));
        }
        vector
    }
}

/// The residue of x for the modulus m: its remainder after the floor quotient, below m.
pub fn residue_of(x: i128, m: u32) -> u32
    requires { 0 < m }
    ensures { result ≡ residue x m }
{
    x.rem_euclid(i128::from(m)) as u32
}
