ghost use Rattle.std.specs.Prelude.{◌≡◌, ◌≤◌, length};
ghost use Rattle.number_theory.specs.Residue.{AreResidues};
ghost use Rattle.moduli_sets.specs.Name.{set_of_name};

use mixed_radix::Chosen;
use moduli_sets::{Moduli, SetName, Vector};
use redundant_decoder::{Decoder, Projecting, Verdict, product_of};

/// The vector of these residues.
fn list(residues: &[u32]) -> Vector
    requires { length residues.now ≤ 12 }
    ensures { result ≡ residues.now }
{
    let mut vector = Vector::new();
    for residue in residues {
        vector.push(*residue);
    }
    vector
}

/// The verdict on these residues.
fn verdict_on(name: SetName, residues: &[u32]) -> Verdict
    requires few { length residues.now ≤ 12 }
    requires residues { AreResidues (set_of_name name).moduli residues.now }
{
    Projecting::of(&Moduli::of(name)).decode(&list(residues))
}

#[test]
fn pocket(rt: HostRuntime) {
    let name = SetName::Pocket;
    assert_eq!(rt; verdict_on(name, &[3, 12, 10, 8, 4]), Verdict::Clean(42));
    assert_eq!(rt;
        verdict_on(name, &[3, 12, 10, 8, 9]),
        Verdict::Corrected(42, 4)
    );
    assert_eq!(rt;
        verdict_on(name, &[9, 1, 13, 8, 4]),
        Verdict::Corrected(61, 3)
    );
    assert_eq!(rt; verdict_on(name, &[4, 13, 10, 8, 4]), Verdict::Damaged);
    // the residues of 98, one above the greatest integer in range
    assert_eq!(rt; verdict_on(name, &[7, 8, 2, 13, 3]), Verdict::Damaged);
}

#[test]
fn desk(rt: HostRuntime) {
    let name = SetName::Desk;
    assert_eq!(rt;
        verdict_on(name, &[134, 18, 180, 45, 18, 162, 20, 242]),
        Verdict::Clean(123_456_789_012)
    );
    assert_eq!(rt;
        verdict_on(name, &[134, 18, 180, 45, 18, 162, 120, 242]),
        Verdict::Corrected(123_456_789_012, 6)
    );
    assert_eq!(rt;
        verdict_on(name, &[134, 19, 180, 45, 18, 162, 120, 242]),
        Verdict::Damaged
    );
}

#[test]
fn hall(rt: HostRuntime) {
    let name = SetName::Hall;
    assert_eq!(rt;
        verdict_on(
            name,
            &[17808, 15451, 17808, 16234, 1803, 24399, 15157, 20415]
        ),
        Verdict::Clean(-12_345_678_901_234_567_890_123)
    );
    assert_eq!(rt;
        verdict_on(
            name,
            &[17808, 15451, 18808, 16234, 1803, 24399, 15157, 20415]
        ),
        Verdict::Corrected(-12_345_678_901_234_567_890_123, 2)
    );
    assert_eq!(rt;
        verdict_on(
            name,
            &[17808, 15451, 18808, 16234, 1803, 24399, 15157, 20416]
        ),
        Verdict::Damaged
    );
}

#[test]
fn products_of_pocket(rt: HostRuntime) {
    let set = Moduli::of(SetName::Pocket);
    assert_eq!(rt; product_of(&set, &Chosen::info(&set)), 195);
    assert_eq!(rt; product_of(&set, &Chosen::all(&set)), 1_007_760);
}
