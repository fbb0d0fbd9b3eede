// Symbols as they are written.
use crate::tree::Body;
use halo_status::Kind;

/// How the head of a symbol says that its payments vary.
#[derive(Clone, Copy, Debug)]
pub enum Vary<'a> {
    /// By no letter: the same each time.
    Level,
    /// By `I`.
    Increasing,
    /// By `D` and the digits of a number.
    Decreasing(&'a [u8]),
}

/// One or more names.
#[derive(Debug, Drop)]
pub struct Names<'a> {
    /// The first name.
    pub first: &'a [u8],
    /// The names behind it.
    pub others: Vec<&'a [u8]>,
}

/// The mark on a member of a body.
#[derive(Clone, Copy, Debug)]
pub struct Mark<'a> {
    /// The place of the member, from 0.
    pub member: usize,
    /// The digits of its rank.
    pub rank: &'a [u8],
}

/// A symbol as it is written. Numbers are digits, and may have any value.
#[derive(Debug, Drop)]
pub struct Symbol<'a> {
    /// The years of the deferral, where there is one.
    pub defer: Option<&'a [u8]>,
    /// How the payments vary.
    pub vary: Vary<'a>,
    /// What it is. Only an insurance has causes or a mark.
    pub kind: Kind,
    /// The names of causes, where there are some.
    pub causes: Option<Names<'a>>,
    /// What stands in its square brackets.
    pub body: Body<'a>,
    /// The mark on a member, where there is one. The body is then one list.
    pub mark: Option<Mark<'a>>,
}
