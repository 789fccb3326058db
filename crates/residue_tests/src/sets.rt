use moduli_sets::{Counts, Digits, Kind, Moduli, SetName, Vector, residue_of};

/// Whether a vector has these residues.
fn is_vector(vector: &Vector, residues: &[u32]) -> bool {
    vector.len() == residues.len()
        && residues.iter().enumerate().all(|(i, residue)| i < vector.len()
            && vector.at(i) == *residue)
}

#[test]
fn sets(rt: HostRuntime) {
    for (word, name, info, bound, numbers) in [
        (
            b"pocket".as_slice(),
            SetName::Pocket,
            2,
            97,
            [13, 15, 16, 17, 7, 7],
        ),
        (
            b"desk",
            SetName::Desk,
            5,
            451_727_098_179,
            [239, 241, 247, 251, 120, 120],
        ),
        (
            b"hall",
            SetName::Hall,
            5,
            18_754_376_393_575_156_082_078,
            [32707, 32713, 32717, 32719, 5452, 27256],
        ),
    ] {
        assert!(rt; SetName::named(word) == Some(name));
        let set = Moduli::of(name);
        set.rules();
        assert!(rt; set.info() == info && set.bound() == bound && 4 <= set.count());
        let found = [
            set.modulus(0),
            set.modulus(1),
            set.modulus(2),
            set.modulus(3),
            set.inverse(0, 1),
            set.inverse(1, 0),
        ];
        assert!(rt; found == numbers);
    }
    assert!(rt; SetName::named(b"Desk").is_none() && Kind::InputEnd != Kind::InputRange);
}

#[test]
fn residues(rt: HostRuntime) {
    assert!(rt; residue_of(-97, 13) == 7 && residue_of(i128::MIN, 65535) == 32767);
    let pocket = Moduli::of(SetName::Pocket);
    assert!(rt; is_vector(&pocket.residues_of(42), &[3, 12, 10, 8, 4]));
    assert!(rt; is_vector(&pocket.residues_of(-97), &[7, 8, 15, 5, 17]));
    let mut vector = Vector::new();
    vector.push(7);
    let before = vector.clone().unwrap();
    vector.replace(0, 9);
    assert!(rt; vector.at(0) == 9 && before.at(0) == 7 && vector != before);
    let mut digits = Digits::new();
    digits.push(1);
    digits.replace(0, 2);
    assert!(rt; digits.len() == 1 && digits.at(0) == 2);
    let mut counts = Counts::new();
    counts.push(1);
    counts.replace(0, u64::MAX);
    assert!(rt; counts.len() == 1 && counts.at(0) == u64::MAX);
}
