/// The traps of sources and objects.
#[derive(Clone, Copy, Debug, PartialEq, Eq)]
pub enum Kind {
    /// A division by 0.
    Zero,
    /// A number outside the range that it must lie in.
    Range,
    /// An index outside the array.
    Index,
    /// No input number is left.
    InputEnd,
    /// An input number outside the range that it must lie in.
    InputRange,
    /// More turns of a loop than its limit allows.
    Turns,
    /// More calls open than there are return places, or a return without a call.
    Stack,
}
