/// An operation that a channel has performed.
#[derive(Clone, Copy, Debug, PartialEq, Eq)]
pub struct Entry {
    /// The channel, by its number in the set.
    pub channel: u8,
    /// The number of the operation, counted from 0. All channels perform the same operations in the same order.
    pub number: u64,
    /// What the channel answered: a residue.
    pub answer: u32,
}
