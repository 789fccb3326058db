use channel_alu::{MicroOp, Place};

/// What a plan wants next.
#[derive(Clone, Copy, Debug, PartialEq, Eq)]
pub enum Next {
    /// This operation is to be issued. It is no Show.
    Issue(MicroOp),
    /// This place is to be shown, and its integer told.
    Await(Place),
    /// All is done.
    Done,
    /// The divisor is 0.
    Zero,
}
