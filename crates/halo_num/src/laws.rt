//! Laws of the definitions: functions that do nothing, whose contracts are the laws.

ghost use Rattle.halo_num.specs.Chance.{NoChancesAreSure, OneChanceMore};

/// The product of the chances of a list, each enclosed at most w fine units wide, is enclosed at
/// most w + 1 fine units wider for each factor: the product of none is 1, and one more is a
/// product more.
pub fn products_of_chances()
    ensures none { NoChancesAreSure }
    ensures more { OneChanceMore }
{}
