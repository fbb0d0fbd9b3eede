// Laws of canonical texts: functions that do nothing, whose contracts are the laws.
ghost use Rattle.halo_spell.specs.Laws.{ReadsBack};
ghost use Rattle.halo_spell.specs.Spellable.{ContractsAreSpellable};

/// A contract that a file writes has all that [`spell_contract`](crate::spell_contract) asks for.
pub fn contracts_are_spellable()
    ensures { ContractsAreSpellable }
{}

/// The canonical text of a contract that a file writes is read again as the same contract.
pub fn reads_back()
    ensures { ReadsBack }
{}
