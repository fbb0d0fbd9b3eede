// Laws of statuses: functions that do nothing, whose contracts are the laws.
ghost use Rattle.halo_status.specs.Laws.{LastingFallsOnce, LastingStaysFallen, NobodyThere};

/// A lasting status that does not exist does not exist with fewer lives or fewer terms.
pub fn lasting_falls_once()
    ensures { LastingFallsOnce }
{}

/// A lasting status that does not exist at a time does not exist later, when no more lives are
/// there.
pub fn lasting_stays_fallen()
    ensures { LastingStaysFallen }
{}

/// A status in which every `AtLeast` and every `Exactly` asks for at least one member does not
/// exist with no life there and no term on.
pub fn nobody_there()
    ensures { NobodyThere }
{}
