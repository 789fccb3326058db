ghost use Rattle.std.specs.Prelude.{◌≡◌, ◌<◌, ◌≤◌, length};
ghost use Rattle.number_theory.specs.Residue.{AreResidues};
ghost use Rattle.moduli_sets.specs.Moduli.{set_of};
ghost use Rattle.moduli_sets.specs.Name.{set_of_name};

use moduli_sets::{Moduli, SetName, Vector};
use redundant_decoder::{Decoder, Projecting, Verdict};
use std::marker::Brand;
use std::sync::ledger::{Blank, Ledger};
use syndrome_table::{Steps, Syndromes};

/// The vector of these residues.
fn list(residues: &[u32]) -> Vector
    requires { length residues.now ≤ 12 }
    ensures { result ≡ residues.now }
{
    let mut vector = Vector::new();
    for residue in residues {
        vector.push(*residue);
    }
    vector
}

/// Whether both decoders answer this verdict on these residues.
fn agree(table: &Syndromes, set: &Moduli, residues: &[u32], verdict: Verdict) -> bool
    requires few { length residues.now ≤ 12 }
    requires set { set_of table.now.set ≡ set_of set.now }
    requires residues { AreResidues (set_of set.now).moduli residues.now }
{
    let v = list(residues);
    table.decode(&v) == verdict && Projecting::of(set).decode(&v) == verdict
}

/// The verdict on residues by `decode_counted`, its steps counted in a ledger of their own.
fn counted_verdict<L: Ledger>(table: &Syndromes, residues: &[u32], blank: Blank) -> Verdict
    requires few { length residues.now ≤ 12 }
    requires residues { AreResidues (set_of table.now.set).moduli residues.now }
    requires name { blank.name ≡ L.name }
    requires parts { blank.parts ≡ L.parts }
    requires some { 0 < blank.parts }
{
    let mut steps: Steps<L> = Steps::new(blank);
    table.decode_counted(&list(residues), &mut steps)
}

/// The same, of a table for this set.
fn counted_on(table: &Syndromes, name: SetName, residues: &[u32]) -> Verdict
    requires few { length residues.now ≤ 12 }
    requires set { set_of table.now.set ≡ set_of_name name }
    requires residues { AreResidues (set_of_name name).moduli residues.now }
{
    let _name = name;
    counted_verdict::<Brand>(table, residues, Blank::new(1))
}

#[test]
fn table_of_pocket(rt: HostRuntime) {
    let name = SetName::Pocket;
    let set = Moduli::of(name);
    match Syndromes::build(rt.alloc(), &set) {
        Err(_) => assert!(rt; false),
        Ok(table) => {
            assert!(rt; agree(&table, &set, &[3, 12, 10, 8, 4], Verdict::Clean(42)));
            assert!(rt; agree(&table, &set, &[3, 12, 10, 8, 9], Verdict::Corrected(42, 4)));
            assert!(rt; agree(&table, &set, &[9, 1, 13, 8, 4], Verdict::Corrected(61, 3)));
            assert!(rt; agree(&table, &set, &[4, 13, 10, 8, 4], Verdict::Damaged));
            // the residues of 98, one above the greatest integer in range
            assert!(rt; agree(&table, &set, &[7, 8, 2, 13, 3], Verdict::Damaged));
            // an information residue of 42 is wrong
            assert!(rt; agree(&table, &set, &[4, 12, 10, 8, 4], Verdict::Corrected(42, 0)));
            assert!(rt; agree(&table, &set, &[3, 13, 10, 8, 4], Verdict::Corrected(42, 1)));
            // its triple is that of a case, but the corrected integer is -152, out of range
            assert!(rt; agree(&table, &set, &[4, 0, 8, 1, 0], Verdict::Damaged));
            assert_eq!(rt;
                counted_on(&table, name, &[4, 12, 10, 8, 4]),
                Verdict::Corrected(42, 0)
            );
        }
    }
}

#[test]
fn table_of_hall(rt: HostRuntime) {
    let name = SetName::Hall;
    let set = Moduli::of(name);
    let x = -12_345_678_901_234_567_890_123;
    match Syndromes::build(rt.alloc(), &set) {
        Err(_) => assert!(rt; false),
        Ok(table) => {
            assert_eq!(rt;
                counted_on(
                    &table,
                    name,
                    &[17808, 15451, 18808, 16234, 1803, 24399, 15157, 20415]
                ),
                Verdict::Corrected(x, 2)
            );
        }
    }
}
