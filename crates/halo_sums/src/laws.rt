// Laws of the definitions: functions that do nothing, whose contracts are the laws.
ghost use Rattle.halo_sums.specs.Laws.{BitsAreMembers, CoefficientsAddUp, CoefficientsAreBounded, CoefficientsAreUnique, MasksAreSets};

/// Inclusion and exclusion: the coefficients over the subsets of a set add up to the function
/// there, and no other numbers do so on all sets.
pub fn inclusion_and_exclusion()
    ensures add_up { CoefficientsAddUp }
    ensures unique { CoefficientsAreUnique }
{}

/// Where a function of sets is 0 or 1, the coefficient of a set of s numbers is at most 2^(s - 1)
/// in size, and that of the empty set at most 1.
pub fn coefficients_are_bounded()
    ensures { CoefficientsAreBounded }
{}

/// A sum over the masks below 2^n is the sum over the sets of numbers below n, and the numbers in
/// the set of a mask are those of its bits.
pub fn masks_are_sets()
    ensures sums { MasksAreSets }
    ensures members { BitsAreMembers }
{}
