/// A read of a shelf or a write to a sink failed. Why is not told.
#[derive(Clone, Copy, Debug, PartialEq, Eq)]
pub struct Failed;
