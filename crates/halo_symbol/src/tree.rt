// Statuses as they are written.

/// One member of a list, as it is written.
#[derive(Debug, Drop)]
#[cycle(tree)]
pub enum Node<'a> {
    /// The life of this name.
    Life(&'a [u8]),
    /// A term of so many years, in digits.
    Term(&'a [u8]),
    /// The last survivor of a list.
    Last(Members<'a>),
    /// At least so many members of a list.
    AtLeast(&'a [u8], Members<'a>),
    /// Exactly so many members of a list.
    Exactly(&'a [u8], Members<'a>),
    /// A body in brackets.
    Group(Body<'a>),
}

/// A list of at least one member.
#[derive(Debug, Drop)]
#[cycle(tree)]
pub struct Members<'a> {
    /// The first member.
    pub first: Box<Node<'a>>,
    /// The members behind it.
    pub others: Vec<Node<'a>>,
}

/// A body
#[derive(Debug, Drop)]
#[cycle(tree)]
pub enum Body<'a> {
    /// One list.
    List(Members<'a>),
    /// The second list after the first.
    Reversion(Members<'a>, Members<'a>),
}
