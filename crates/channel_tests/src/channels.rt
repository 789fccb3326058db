ghost use Rattle.std.specs.Prelude.{◌<◌, ◌≤◌};

use channel_alu::{AnyChannel, Channel, FixedChannel, Ones, Plain, Plus, Power};

/// The modulus of a channel, and then a + b, a - b, a * b, -a, a * b + c and (a - b) * c in it.
fn operations_of<C: Channel>(channel: &C, a: u32, b: u32, c: u32) -> [u32; 7]
    requires first { a < C.modulus channel.now }
    requires second { b < C.modulus channel.now }
    requires third { c < C.modulus channel.now }
{
    [
        channel.modulus(),
        channel.add(a, b),
        channel.sub(a, b),
        channel.mul(a, b),
        channel.neg(a),
        channel.mul_add(a, b, c),
        channel.unscale(a, b, c),
    ]
}

/// Those of the channel of a type.
fn operations<C: FixedChannel>(a: u32, b: u32, c: u32) -> [u32; 7]
    requires first { a < C.MODULUS }
    requires second { b < C.MODULUS }
    requires third { c < C.MODULUS }
{
    operations_of(&C::new(), a, b, c)
}

/// The same by `%`.
fn remainders(modulus: u32, a: u32, b: u32, c: u32) -> [u32; 7]
    requires fits { modulus ≤ 65535 }
    requires first { a < modulus }
    requires second { b < modulus }
    requires third { c < modulus }
{
    let difference = (a + modulus - b) % modulus;
    [
        modulus,
        (a + b) % modulus,
        difference,
        a * b % modulus,
        (modulus - a) % modulus,
        (a * b + c) % modulus,
        difference * c % modulus,
    ]
}

/// Whether the operations of a channel are the remainders at all its residues.
fn are_remainders<C: FixedChannel>() -> bool {
    let modulus = C::new().modulus();
    for a in 0..modulus {
        for b in 0..modulus {
            for c in 0..modulus {
                if operations::<C>(a, b, c) != remainders(modulus, a, b, c) {
                    return false;
                }
            }
        }
    }
    true
}

#[test]
fn small_moduli(rt: HostRuntime) {
    assert!(rt; are_remainders::<Plain<13>>());
    assert!(rt; are_remainders::<Ones<4>>());
    assert!(rt; are_remainders::<Power<4>>());
    assert!(rt; are_remainders::<Plus<4>>());
}

/// Whether the operations of the channel of a modulus that is known only at run time are the remainders at its greatest
/// residues.
fn greatest_are_remainders(modulus: u32) -> bool
    requires low { 4 ≤ modulus }
    requires high { modulus ≤ 65535 }
{
    let [a, b, c] = [modulus - 1, modulus - 2, modulus - 3];
    operations_of(&AnyChannel::of(modulus), a, b, c) == remainders(modulus, a, b, c)
}

#[test]
fn moduli_known_at_run_time(rt: HostRuntime) {
    assert!(rt; greatest_are_remainders(13));
    assert!(rt; greatest_are_remainders(15));
    assert!(rt; greatest_are_remainders(16));
    assert!(rt; greatest_are_remainders(17));
    assert!(rt; greatest_are_remainders(255));
    assert!(rt; greatest_are_remainders(256));
    assert!(rt; greatest_are_remainders(257));
    assert!(rt; greatest_are_remainders(32767));
    assert!(rt; greatest_are_remainders(32768));
    assert!(rt; greatest_are_remainders(32769));
    assert!(rt; greatest_are_remainders(65535));
}

// The expected numbers were computed in Python.

#[test]
fn operations_of_each_kind(rt: HostRuntime) {
    for (found, expected) in [
        (operations::<Plain<13>>(7, 9, 5), [13, 3, 11, 11, 6, 3, 3]),
        (
            operations::<Plain<65535>>(1, 65533, 65534),
            [65535, 65534, 3, 65533, 65534, 65532, 65532],
        ),
        (operations::<Ones<4>>(7, 8, 14), [15, 0, 14, 11, 8, 10, 1]),
        (
            operations::<Ones<16>>(65534, 65533, 65532),
            [65535, 65532, 1, 2, 1, 65534, 65532],
        ),
        (operations::<Power<4>>(7, 9, 13), [16, 0, 14, 15, 9, 12, 6]),
        (
            operations::<Power<15>>(32767, 32766, 32765),
            [32768, 32765, 1, 2, 1, 32767, 32765],
        ),
        (operations::<Plus<4>>(16, 16, 16), [17, 15, 0, 1, 1, 0, 0]),
        (
            operations::<Plus<15>>(32768, 32767, 32766),
            [32769, 32766, 1, 2, 1, 32768, 32766],
        ),
    ] {
        assert!(rt; found == expected);
    }
}

#[test]
fn fallbacks(rt: HostRuntime) {
    for (found, expected) in [
        (operations::<Plain<1>>(0, 1, 1), [2, 1, 1, 0, 0, 1, 1]),
        (operations::<Plain<65536>>(1, 1, 1), [2, 0, 0, 1, 1, 0, 0]),
        (operations::<Ones<1>>(1, 2, 2), [3, 0, 2, 2, 2, 1, 1]),
        (operations::<Ones<17>>(2, 1, 2), [3, 0, 1, 2, 1, 1, 2]),
        (operations::<Power<0>>(0, 1, 1), [2, 1, 1, 0, 0, 1, 1]),
        (operations::<Power<16>>(1, 1, 1), [2, 0, 0, 1, 1, 0, 0]),
        (operations::<Plus<0>>(1, 2, 2), [3, 0, 2, 2, 2, 1, 1]),
        (operations::<Plus<16>>(2, 1, 2), [3, 0, 1, 2, 1, 1, 2]),
    ] {
        assert!(rt; found == expected);
    }
}
