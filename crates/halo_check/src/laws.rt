// Laws of the checks: functions that do nothing, whose contracts are the laws.
ghost use Rattle.halo_check.specs.CheckLaws.{FirstFailedIsOne, PassesOrFails};

/// Of the checks that a line does not pass one is the first.
pub fn first_failed_is_one()
    ensures { FirstFailedIsOne }
{}

/// A line passes all checks, or there is a first one that it does not pass.
pub fn passes_or_fails()
    ensures { PassesOrFails }
{}
