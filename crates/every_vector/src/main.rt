//! Decodes every vector of `pocket` twice, by projection and by the table of syndromes, and prints how many there are and
//! on how many the two verdicts differ.
#![tactic(auto)]

ghost use Rattle.std.specs.Prelude.{◌≡◌};
ghost use Rattle.number_theory.specs.Residue.{AreResidues};
ghost use Rattle.moduli_sets.specs.Moduli.{set_of};
ghost use Rattle.moduli_sets.specs.Name.{set_of_name};
ghost use Rattle.moduli_sets.specs.declared.set_name.SetName.TheVariants.{Pocket};

use moduli_sets::{Moduli, SetName, Vector};
use redundant_decoder::{Decoder, Projecting};
use std::io;
use syndrome_table::Syndromes;

/// How many vectors there are: the product of all moduli.
const VECTORS: u32 = 13 * 15 * 16 * 17 * 19;

/// The residues of n. Each vector is that of one n below the product of the moduli.
fn vector_of(n: u32) -> Vector
    ensures { AreResidues (set_of_name Pocket).moduli result }
{
    let mut vector = Vector::new();
    vector.push(n % 13);
    vector.push(n % 15);
    vector.push(n % 16);
    vector.push(n % 17);
    vector.push(n % 19);
    vector
}

/// On how many vectors the verdicts of two decoders differ.
fn differences(table: &Syndromes, projecting: &Projecting) -> u32
    requires table { set_of table.now.set ≡ set_of_name Pocket }
    requires projecting { set_of projecting.now.set ≡ set_of_name Pocket }
{
    let mut differences: u32 = 0;
    for n in 0..VECTORS {
        let vector = vector_of(n);
        if table.decode(&vector) != projecting.decode(&vector) {
            differences = differences.saturating_add(1);
        }
    }
    differences
}

fn main(rt: HostRuntime) -> io::Result<()> {
    let set = Moduli::of(SetName::Pocket);
    let table = Syndromes::build(rt.alloc(), &set)?;
    let differences = differences(&table, &Projecting::of(&set));
    println!(rt; "{VECTORS} vectors, {differences} of them with two verdicts")?;
    Ok(())
}
