ghost use Rattle.std.specs.Prelude.{◌≡◌};
ghost use Rattle.machine_table.specs.Control.{lies_in};
ghost use Rattle.machine_table.specs.Integers.{is_index};

/// A number lies in an interval, ends included.
pub fn lies_in(low: i128, high: i128, x: i128) -> bool
    ensures { result ≡ lies_in low high x }
{
    low <= x && x <= high
}

/// A number is an index of so many elements.
pub fn is_index(count: u32, x: i128) -> bool
    ensures { result ≡ is_index count x }
{
    0 <= x && x < i128::from(count)
}
