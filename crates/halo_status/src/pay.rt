// What a pay line of a contract promises.
use crate::Status;

/// What a pay is: the symbols A, a and ad of the halo notation.
#[derive(Clone, Copy, Debug, PartialEq, Eq)]
pub enum Kind {
    /// A payment at the end of the year in which the status fails: `A`.
    Insurance,
    /// Yearly payments at the ends of the years at which the status exists: `a`.
    Immediate,
    /// Yearly payments at the beginnings of the years at which the status exists: `ä`.
    Due,
}

/// How a payment grows or falls with the years passed since the deferral.
#[derive(Clone, Copy, Debug, PartialEq, Eq)]
pub enum Vary {
    /// The amount each time.
    Level,
    /// The amount times the years passed plus 1.
    Increasing,
    /// The amount times this number less the years passed, and nothing once that is used up.
    Decreasing(u16),
}

/// A member of a joint status at whose failure an insurance pays, if it fails at its rank: what
/// makes it a contingent insurance.
#[derive(Clone, Copy, Debug, PartialEq, Eq)]
pub struct Mark {
    /// The place of the member, from 0.
    pub member: u8,
    /// At which failure it pays, from 1 for the first.
    pub rank: u8,
}

/// A pay: an amount, and when it is paid.
#[derive(Debug, Drop)]
pub struct Pay {
    /// The amount, in whole units of money.
    pub amount: u64,
    /// How the payments vary.
    pub vary: Vary,
    /// What it is.
    pub kind: Kind,
    /// The years before which nothing is paid.
    pub defer: u16,
    /// The causes of decrement that it pays by, cause j as bit j; by any where none are given.
    pub causes: Option<u8>,
    /// The status that it is paid on.
    pub body: Status,
    /// The marked member, if there is one.
    pub mark: Option<Mark>,
}
