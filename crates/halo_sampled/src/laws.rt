// Laws of the files of a sample: functions that do nothing, whose contracts are the laws.
ghost use Rattle.halo_sampled.specs.Laws.{ContractHasNoFault, FilesAreShort, TablesHaveNoFault};

/// The tables file of each sample has no fault, and holds the tables that are drawn.
pub fn tables_have_no_fault()
    ensures { TablesHaveNoFault }
{}

/// The contract file of each sample has no fault, and writes a contract of eight lives, with 64
/// pays, a premium and two reserves.
pub fn contract_has_no_fault()
    ensures { ContractHasNoFault }
{}

/// Both files are as short as files have to be.
pub fn files_are_short()
    ensures { FilesAreShort }
{}
