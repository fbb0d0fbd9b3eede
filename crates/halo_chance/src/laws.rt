// Laws of the definitions: functions that do nothing, whose contracts are the laws.

ghost use Rattle.halo_chance.specs.Ending.{PayEndLossIsNotNegative};
ghost use Rattle.halo_chance.specs.Present.{EndPresent, ExistingPresent, LeavingPresent};

/// What the products enclose that a value is added up from, over the common denominator of values:
/// of a time, the discount factor times the chance along the tree; of a life's leaving in a year,
/// the discount factor times the chance of the leaving times the loss of the status with that life;
/// of a term's end, the discount factor times the loss of the status with that term.
pub fn present_values_go_along_the_tree()
    ensures existing { ExistingPresent }
    ensures leaving { LeavingPresent }
    ensures end { EndPresent }
{}

/// The status on which an insurance waits loses no less than nothing with a term that ends.
pub fn end_losses_are_not_negative()
    ensures { PayEndLossIsNotNegative }
{}
