ghost use Rattle.std.specs.Prelude.{◌≡◌, ◌≤◌, pos, length};
ghost use Rattle.moduli_sets.specs.Moduli.{set_of};
ghost use Rattle.moduli_sets.specs.Set.{IsInRange};
ghost use Rattle.mixed_radix.specs.Chosen.{AreBelow};

use mixed_radix::{Chosen, compare, digits_of, sign_of, value_of};
use moduli_sets::{Digits, Moduli, SetName};
use std::cmp::Ordering;

/// The digits of these numbers.
fn list(numbers: &[u32]) -> Digits
    requires { length numbers.now ≤ 12 }
    ensures { result ≡ numbers.now }
{
    let mut digits = Digits::new();
    for number in numbers {
        digits.push(*number);
    }
    digits
}

/// The digits that x's residues have at the chosen channels, and the number that they write.
fn digits_and_value(set: &Moduli, which: &Chosen, x: i128) -> (Digits, u128)
    requires range { IsInRange (set_of set.now) x }
    requires channels { AreBelow (length (set_of set.now).moduli) which.now }
{
    set.rules();
    let digits = digits_of(set, which, &set.residues_of(x));
    let value = value_of(set, which, &digits);
    (digits, value)
}

#[test]
fn all_channels(rt: HostRuntime) {
    let set = Moduli::of(SetName::Pocket);
    let which = Chosen::all(&set);
    assert_eq!(rt;
        digits_and_value(&set, &which, 42),
        (list(&[3, 3, 0, 0, 0]), 42)
    );
    // the product of all moduli, less 97
    assert_eq!(rt;
        digits_and_value(&set, &which, -97),
        (list(&[7, 7, 15, 16, 18]), 1_007_663)
    );
}

#[test]
fn information_channels(rt: HostRuntime) {
    let set = Moduli::of(SetName::Pocket);
    let which = Chosen::info(&set);
    assert_eq!(rt; digits_and_value(&set, &which, 42), (list(&[3, 3]), 42));
    assert_eq!(rt; digits_and_value(&set, &which, -97), (list(&[7, 7]), 98));
}

#[test]
fn some_channels(rt: HostRuntime) {
    let set = Moduli::of(SetName::Pocket);
    let which = Chosen::without(&set, 2);
    assert_eq!(rt; (which.len(), which.at(1), which.at(2)), (4, 1, 3));
    assert_eq!(rt;
        digits_and_value(&set, &which, -97),
        (list(&[7, 7, 16, 18]), 62_888)
    );
    let which = Chosen::but(&set, 0, 3);
    assert_eq!(rt; (which.len(), which.at(0), which.at(2)), (3, 1, 4));
    assert_eq!(rt;
        digits_and_value(&set, &which, -97),
        (list(&[8, 9, 18]), 4_463)
    );
}

#[test]
fn least_integer_of_desk(rt: HostRuntime) {
    let set = Moduli::of(SetName::Desk);
    assert_eq!(rt;
        digits_and_value(&set, &Chosen::all(&set), -451_727_098_179),
        (
            list(&[120, 120, 123, 125, 126, 254, 255, 256]),
            15_157_214_462_419_990_461
        )
    );
    assert_eq!(rt;
        sign_of(&set, &set.residues_of(-451_727_098_179)),
        Ordering::Less
    );
}

#[test]
fn highest_digit_decides(rt: HostRuntime) {
    assert_eq!(rt; compare(&list(&[5, 1]), &list(&[4, 2])), Ordering::Less);
    assert_eq!(rt; compare(&list(&[5, 2]), &list(&[4, 2])), Ordering::Greater);
    assert_eq!(rt; compare(&list(&[4, 2]), &list(&[4, 2])), Ordering::Equal);
}

#[test]
fn signs(rt: HostRuntime) {
    let set = Moduli::of(SetName::Pocket);
    assert_eq!(rt; sign_of(&set, &set.residues_of(0)), Ordering::Equal);
    assert_eq!(rt; sign_of(&set, &set.residues_of(1)), Ordering::Greater);
    assert_eq!(rt; sign_of(&set, &set.residues_of(-1)), Ordering::Less);
    assert_eq!(rt; sign_of(&set, &set.residues_of(97)), Ordering::Greater);
    assert_eq!(rt; sign_of(&set, &set.residues_of(-97)), Ordering::Less);
}
