// Laws of the definitions: functions that do nothing, whose contracts are the laws.
ghost use Rattle.halo_insure.specs.Dues.{NothingIsDueAfter, SetValueIsWorth, SetsWithinCount};
ghost use Rattle.halo_insure.specs.Total.{SetsEncloseValue};

/// The widths of the values of all sets of lives add up to no more than the count of the insurance,
/// for its whole value and for what falls on some events.
pub fn sets_are_within_the_count()
    ensures { SetsWithinCount }
{}

/// The value of an insurance for a set of lives, summed over the orders taken, is what the
/// coefficients of the set that are above 0 are worth, less what those below 0 are. From the
/// horizon on nothing is due for a set.
pub fn set_values_by_signs()
    ensures worth { SetValueIsWorth }
    ensures horizon { NothingIsDueAfter }
{}

/// The sum over the sets of the named lives of those alive, of intervals that enclose what each set
/// is worth by the signs of its coefficients, encloses the value of the insurance and is within its
/// count.
pub fn sets_enclose_the_value()
    ensures { SetsEncloseValue }
{}
