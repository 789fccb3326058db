//! The vectors that expressions have, where their intervals fit.
ghost use Rattle.std.specs.Prelude.{◌≡◌, ℤ, IsSome, map};
ghost use Rattle.moduli_sets.specs.Moduli.{set_of};
ghost use Rattle.moduli_sets.specs.Name.{set_of_name};
ghost use Rattle.moduli_sets.specs.declared.set_name.SetName.TheVariants.{Pocket};
ghost use Rattle.thin_source.specs.ThinView.{atom_view, product_view, sign_view, sum_view, declaration_view};
ghost use Rattle.thin_source.specs.ThinRules.{range_of, atom_interval, product_interval, sum_interval};
ghost use Rattle.thin_source.specs.ThinMeaning.{State, atom_value, product_value, joined, sum_value};
ghost use Rattle.thin_source.specs.ThinVectors.{pocket_vector};
ghost use Rattle.thin_source.specs.ThinStates.{Holds, place_in};

use super::residues::{add, copy_of, mul, sub};
use super::tree::{Atom, Declaration, Product, Sign, Sum};
use moduli_sets::{Moduli, Vector};

/// The place among the declarations of the one that has this name.
pub fn place_of(declarations: &[Declaration], name: &[u8]) -> usize
    requires { IsSome (range_of (map declaration_view declarations.now) name.now) }
    ensures { result ≡ place_in (map declaration_view declarations.now) name.now }
{
    for (i, declaration) in declarations.iter().enumerate() {
        if declaration.name == name {
            return i;
        }
    }
    unreachable!()
}

/// The vector of a number or a variable.
fn atom_of(set: &Moduli, declarations: &[Declaration], variables: &[Vector], atom: &Atom) -> Vector
    requires pocket { set_of set.now ≡ set_of_name Pocket }
    requires fits { IsSome (atom_interval (map declaration_view declarations.now) (atom_view atom.now)) }
    requires held { (state : State) × Holds (map declaration_view declarations.now) variables.now state }
    ensures { (state : State)
        → Holds (map declaration_view declarations.now) variables.now state
        → result ≡ pocket_vector (atom_value state (atom_view atom.now)) }
{
    match atom {
        Atom::Number(n) => set.residues_of(*n as i128),
        Atom::Name(name) => copy_of(&variables[place_of(declarations, name)]),
    }
}

/// The vector of a product.
fn product_of(
    set: &Moduli,
    declarations: &[Declaration],
    variables: &[Vector],
    product: &Product,
) -> Vector
    requires pocket { set_of set.now ≡ set_of_name Pocket }
    requires fits { IsSome (product_interval (map declaration_view declarations.now) (product_view product.now)) }
    requires held { (state : State) × Holds (map declaration_view declarations.now) variables.now state }
    ensures { (state : State)
        → Holds (map declaration_view declarations.now) variables.now state
        → result ≡ pocket_vector (product_value state (product_view product.now)) }
{
    let mut value = atom_of(set, declarations, variables, &product.first);
    for atom in &product.more {
        value = mul(&value, &atom_of(set, declarations, variables, atom));
    }
    value
}

/// The vector of a sum.
pub fn sum_of(set: &Moduli, declarations: &[Declaration], variables: &[Vector], sum: &Sum) -> Vector
    requires pocket { set_of set.now ≡ set_of_name Pocket }
    requires fits { IsSome (sum_interval (map declaration_view declarations.now) (sum_view sum.now)) }
    requires held { (state : State) × Holds (map declaration_view declarations.now) variables.now state }
    ensures { (state : State)
        → Holds (map declaration_view declarations.now) variables.now state
        → result ≡ pocket_vector (sum_value state (sum_view sum.now)) }
{
    let mut value = product_of(set, declarations, variables, &sum.first);
    for (sign, product) in &sum.more {
        value = joined(
            *sign,
            &value,
            &product_of(set, declarations, variables, product),
        );
    }
    value
}

/// The vector of a term joined to a sum.
fn joined(sign: Sign, sum: &Vector, term: &Vector) -> Vector
    requires left { (x : ℤ) × (sum.now ≡ pocket_vector x) }
    requires right { (y : ℤ) × (term.now ≡ pocket_vector y) }
    ensures { (x y : ℤ)
        → sum.now ≡ pocket_vector x
        → term.now ≡ pocket_vector y
        → result ≡ pocket_vector (joined (sign_view sign) x y) }
{
    match sign {
        Sign::Plus => add(sum, term),
        Sign::Minus => sub(sum, term),
    }
}
