ghost use Rattle.std.specs.Prelude.{◌≡◌, ◌/◌, ◌%◌, ◌^◌, ◌≤◌};

/// The low bits of x, `bits` of them.
pub fn low_bits(x: u32, bits: u32) -> u32
    requires { bits ≤ 16 }
    ensures { result ≡ x % 2 ^ bits }
{
    x & ((1 << bits) - 1)
}

/// What is carried out of the low bits of x.
pub fn carry_out(x: u32, bits: u32) -> u32
    requires { bits ≤ 16 }
    ensures { result ≡ x / 2 ^ bits }
{
    x >> bits
}
