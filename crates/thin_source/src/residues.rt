//! Vectors of `pocket`: operations on them, and back to integers.
ghost use Rattle.std.specs.Prelude.{◌≡◌, ℤ, ◌+ℤ◌, ◌-ℤ◌, ◌*ℤ◌, ◌<◌};
ghost use Rattle.number_theory.specs.Residue.{residue};
ghost use Rattle.moduli_sets.specs.Moduli.{set_of};
ghost use Rattle.moduli_sets.specs.Set.{IsInRange};
ghost use Rattle.moduli_sets.specs.Vector.{vector_of};
ghost use Rattle.thin_source.specs.ThinVectors.{pocket_vector};
ghost use Rattle.thin_source.specs.ThinStates.{operated};

use channel_alu::{Channel, FixedChannel, Plain};
use moduli_sets::{Moduli, Vector};

/// An operation on residues.
#[derive(Clone, Copy)]
enum Operation {
    Add,
    Sub,
    Mul,
}

/// The vector of the sum of two integers.
pub fn add(a: &Vector, b: &Vector) -> Vector
    requires left { (x : ℤ) × (a.now ≡ pocket_vector x) }
    requires right { (y : ℤ) × (b.now ≡ pocket_vector y) }
    ensures { (x y : ℤ)
        → a.now ≡ pocket_vector x
        → b.now ≡ pocket_vector y
        → result ≡ pocket_vector (x +ℤ y) }
{
    on_each_channel(Operation::Add, a, b)
}

/// The vector of the difference of two integers.
pub fn sub(a: &Vector, b: &Vector) -> Vector
    requires left { (x : ℤ) × (a.now ≡ pocket_vector x) }
    requires right { (y : ℤ) × (b.now ≡ pocket_vector y) }
    ensures { (x y : ℤ)
        → a.now ≡ pocket_vector x
        → b.now ≡ pocket_vector y
        → result ≡ pocket_vector (x -ℤ y) }
{
    on_each_channel(Operation::Sub, a, b)
}

/// The vector of the product of two integers.
pub fn mul(a: &Vector, b: &Vector) -> Vector
    requires left { (x : ℤ) × (a.now ≡ pocket_vector x) }
    requires right { (y : ℤ) × (b.now ≡ pocket_vector y) }
    ensures { (x y : ℤ)
        → a.now ≡ pocket_vector x
        → b.now ≡ pocket_vector y
        → result ≡ pocket_vector (x *ℤ y) }
{
    on_each_channel(Operation::Mul, a, b)
}

/// The operation in each channel of `pocket`, by the channel's type.
fn on_each_channel(operation: Operation, a: &Vector, b: &Vector) -> Vector
    requires left { (x : ℤ) × (a.now ≡ pocket_vector x) }
    requires right { (y : ℤ) × (b.now ≡ pocket_vector y) }
    ensures { (x y : ℤ)
        → a.now ≡ pocket_vector x
        → b.now ≡ pocket_vector y
        → result ≡ pocket_vector (operated operation x y) }
{
    let mut vector = Vector::new();
    vector.push(in_channel::<Plain<13>>(operation, a.at(0), b.at(0)));
    vector.push(in_channel::<Plain<15>>(operation, a.at(1), b.at(1)));
    vector.push(in_channel::<Plain<16>>(operation, a.at(2), b.at(2)));
    vector.push(in_channel::<Plain<17>>(operation, a.at(3), b.at(3)));
    vector.push(in_channel::<Plain<19>>(operation, a.at(4), b.at(4)));
    vector
}

/// The operation on the residues of one channel.
fn in_channel<C: FixedChannel>(operation: Operation, a: u32, b: u32) -> u32
    requires left { a < C.MODULUS }
    requires right { b < C.MODULUS }
    ensures { (x y : ℤ)
        → a ≡ residue x C.MODULUS
        → b ≡ residue y C.MODULUS
        → result ≡ residue (operated operation x y) C.MODULUS }
{
    let channel = C::new();
    match operation {
        Operation::Add => channel.add(a, b),
        Operation::Sub => channel.sub(a, b),
        Operation::Mul => channel.mul(a, b),
    }
}

/// The integer in range that a vector stands for, by trying each.
pub fn integer_of(set: &Moduli, vector: &Vector) -> i128
    requires { (x : ℤ) × IsInRange (set_of set.now) x × (vector.now ≡ vector_of (set_of set.now).moduli x) }
    ensures { (x : ℤ)
        → IsInRange (set_of set.now) x
        → vector.now ≡ vector_of (set_of set.now).moduli x
        → result ≡ x }
{
    set.tells_apart();
    let bound = set.bound();
    for x in -bound..=bound {
        if set.residues_of(x) == *vector {
            return x;
        }
    }
    unreachable!()
}

/// A vector once more.
pub fn copy_of(vector: &Vector) -> Vector
    ensures { result ≡ vector.now }
{
    let mut copy = Vector::new();
    for i in 0..vector.len() {
        copy.push(vector.at(i));
    }
    copy
}
