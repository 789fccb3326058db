/// The integers from `low` to `high`.
#[derive(Clone, Copy, Debug)]
pub struct Interval {
    pub low: i128,
    pub high: i128,
}
