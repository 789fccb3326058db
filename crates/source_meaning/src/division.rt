ghost use Rattle.std.specs.Prelude.{◌≡◌, pos};
ghost use Rattle.number_theory.specs.Division.{floor_div, floor_mod};
ghost use Rattle.source_meaning.specs.Words.{word_of};

use number_theory::floor_quotient_and_rest;

/// The floor of x / y, where 128 bits hold it.
pub fn floor_quotient(x: i128, y: i128) -> Option<i128>
    requires { ¬ (y ≡ pos 0) }
    ensures { result ≡ word_of (floor_div x y) }
{
    if 0 < y {
        Some(x.div_euclid(y))
    } else if 0 < x {
        Some((x - 1) / y - 1)
    } else {
        x.checked_div(y)
    }
}

/// What the floor of x / y leaves: it has the sign of y.
pub fn floor_remainder(x: i128, y: i128) -> i128
    requires { ¬ (y ≡ pos 0) }
    ensures { result ≡ floor_mod x y }
{
    floor_quotient_and_rest();
    if 0 < y {
        x.rem_euclid(y)
    } else if 0 < x {
        y + 1 + (x - 1) % y
    } else if y == -1 {
        0
    } else {
        x % y
    }
}
