// Laws of the definitions: functions that do nothing, whose contracts are the laws.
ghost use Rattle.halo_symbol.specs.Laws.{StatusIsOne, StatusOrNone, SymbolIsOne, SymbolOrNone};

/// A word spells at most one symbol.
pub fn symbol_is_one()
    ensures { SymbolIsOne }
{}

/// A word spells at most one status.
pub fn status_is_one()
    ensures { StatusIsOne }
{}

/// A word spells a symbol, or it spells none.
pub fn symbol_or_none()
    ensures { SymbolOrNone }
{}

/// A word spells a status, or it spells none.
pub fn status_or_none()
    ensures { StatusOrNone }
{}
