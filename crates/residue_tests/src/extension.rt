ghost use Rattle.std.specs.Prelude.{◌≤◌};
ghost use Rattle.moduli_sets.specs.Moduli.{set_of};
ghost use Rattle.moduli_sets.specs.Set.{IsInRange};

use base_extension::{extend, scaled_residue};
use mixed_radix::{Chosen, digits_of};
use moduli_sets::{Moduli, SetName};

/// The residue modulo p of the number that has x's residues at all channels.
fn extended_residue(set: &Moduli, x: i128, p: u32) -> u32
    requires range { IsInRange (set_of set.now) x }
    requires positive { 1 ≤ p }
    requires fits { p ≤ 65535 }
{
    set.rules();
    let which = Chosen::all(set);
    extend(set, &which, &digits_of(set, &which, &set.residues_of(x)), p)
}

#[test]
fn further_moduli(rt: HostRuntime) {
    let set = Moduli::of(SetName::Pocket);
    assert_eq!(rt; extended_residue(&set, 42, 7), 0);
    assert_eq!(rt; extended_residue(&set, 42, 16), 10);
    assert_eq!(rt; extended_residue(&set, 42, 65_535), 42);
    assert_eq!(rt; extended_residue(&set, 42, 1), 0);
    // 1,007,760, the product of all moduli, less 97
    assert_eq!(rt; extended_residue(&set, -97, 65_535), 24_638);
}

#[test]
fn floor_quotients(rt: HostRuntime) {
    let pocket = Moduli::of(SetName::Pocket);
    assert_eq!(rt; scaled_residue(&pocket, -42, 0), 9);
    assert_eq!(rt; scaled_residue(&pocket, 42, 4), 2);
    assert_eq!(rt; scaled_residue(&pocket, -1, 0), 12);
    let desk = Moduli::of(SetName::Desk);
    assert_eq!(rt; scaled_residue(&desk, 1000, 4), 3);
}
