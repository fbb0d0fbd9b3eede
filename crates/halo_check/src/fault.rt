// What can be wrong with a line of a contract file.
/// What is wrong with a line of a contract file. Within a line the first of this order is told, but
/// that round brackets which open too far are told as `Magnitude` before `Syntax`.
#[derive(Clone, Copy, Debug, PartialEq, Eq)]
pub enum ContractKind {
    /// It has none of the six forms.
    Syntax,
    /// A number is above its limit, a name is longer than 32 bytes, a list has more than 16
    /// members, a body more than 64 nodes, or there are too many lives, pays, reserves or fractions
    /// of interest; or the amounts so far are above 10^10; or more than 16 round brackets are open.
    Magnitude,
    /// A Q, a YEAR, an amount, a term or the number of a `D` is 0.
    Zero,
    /// A YEAR is not above the one before it.
    Years,
    /// An earlier line is of a later form.
    Order,
    /// It is a second interest, ties or premium line, or a life's name was declared before, or a
    /// name stands twice in one set or in one reserve.
    Twice,
    /// A life's table is not in the tables file.
    NoTable,
    /// A life's table has no row at its age.
    NoAge,
    /// A name in a symbol, status or reserve was not declared.
    NoLife,
    /// A name in a set is no cause of the tables file.
    NoCause,
    /// The number of an `at least`, an `exactly` or a mark is 0 or above the number of members.
    Rank,
    /// The body of an insurance has an `exactly` or a reversion.
    NotLasting,
    /// In a marked list two different members name the same life or the same term length.
    Shared,
    /// The premium's status does not exist at time 0 with all lives alive.
    NotAtStart,
    /// A life named in a reserve has no row at its age plus the time.
    NotAlive,
    /// No line is faulty, and there is no interest, no life or no pay line.
    Missing,
}
