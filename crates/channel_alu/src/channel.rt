ghost use Rattle.std.specs.Prelude.{◌≡◌, ℕ, pos, ◌+◌, ◌-◌, ◌*◌, ◌%◌, ◌<◌, ◌≤◌, neg_ℤ, ◌-ℤ◌, ◌*ℤ◌};
ghost use Rattle.number_theory.specs.Residue.{residue};

/// The arithmetic of one modulus. Each argument is a residue, below the modulus, and so is each answer.
///
/// A channel gives its modulus and its own way of bringing a sum or a product back below it; the operations
/// stand on these two.
pub trait Channel: Copy {
    /// The modulus of a channel.
    ghost modulus: { Self → ℕ };

    /// The modulus, 2 to 65,535.
    fn modulus(&self) -> u32
        ensures value { result ≡ modulus self.now }
        ensures at_least_two { 2 ≤ result }
        ensures fits { result ≤ 65535 };

    /// The residue of x, where x is at most what the greatest residues give in `mul_add`.
    fn reduce(&self, x: u32) -> u32
        requires { x ≤ modulus self.now * (modulus self.now - 1) }
        ensures { result ≡ x % modulus self.now };

    /// The residue of a + b.
    fn add(&self, a: u32, b: u32) -> u32
        requires left { a < modulus self.now }
        requires right { b < modulus self.now }
        ensures { result ≡ (a + b) % modulus self.now }
    {
        self.reduce(a + b)
    }

    /// The residue of a - b, also where b is greater.
    fn sub(&self, a: u32, b: u32) -> u32
        requires left { a < modulus self.now }
        requires right { b < modulus self.now }
        ensures { result ≡ residue (pos a -ℤ pos b) (modulus self.now) }
    {
        if b <= a {
            a - b
        } else {
            a + (self.modulus() - b)
        }
    }

    /// The residue of a * b.
    fn mul(&self, a: u32, b: u32) -> u32
        requires left { a < modulus self.now }
        requires right { b < modulus self.now }
        ensures { result ≡ (a * b) % modulus self.now }
    {
        self.reduce(a * b)
    }

    /// The residue of -a.
    fn neg(&self, a: u32) -> u32
        requires { a < modulus self.now }
        ensures { result ≡ residue (neg_ℤ (pos a)) (modulus self.now) }
    {
        self.sub(0, a)
    }

    /// The residue of a * b + c.
    fn mul_add(&self, a: u32, b: u32, c: u32) -> u32
        requires left { a < modulus self.now }
        requires right { b < modulus self.now }
        requires plus { c < modulus self.now }
        ensures { result ≡ (a * b + c) % modulus self.now }
    {
        self.reduce(a * b + c)
    }

    /// The residue of (a - take) * inverse: that of (x - t) / d, where a and `take` are the residues of x and t,
    /// d divides x - t, and `inverse` is the inverse of d (Szabó and Tanaka 1967).
    fn unscale(&self, a: u32, take: u32, inverse: u32) -> u32
        requires from { a < modulus self.now }
        requires take { take < modulus self.now }
        requires inverse { inverse < modulus self.now }
        ensures { result ≡ residue ((pos a -ℤ pos take) *ℤ pos inverse) (modulus self.now) }
    {
        self.mul(self.sub(a, take), inverse)
    }

    ghost modulus_at_least_two: { (channel : Self) → 2 ≤ modulus channel };

    ghost modulus_fits: { (channel : Self) → modulus channel ≤ 65535 };
}

/// A channel whose type alone says its modulus. Its value takes no room.
pub trait FixedChannel: Channel {
    /// The modulus of the type.
    ghost MODULUS: { ℕ };

    /// The channel of this type.
    fn new() -> Self
        ensures { Self.modulus result ≡ MODULUS };
}
