// Laws of contract files: functions that do nothing, whose contracts are the laws.
ghost use Rattle.halo_parse.specs.ContractLaws.{ContractsAreValid, PaysAreValid, PremiumsAreValid};
ghost use Rattle.halo_parse.specs.FileLaws.{ContractIsOne, ContractOrFault, FirstFaultIsOne, NoFaultIsFirst};

/// A pay line that passes all checks adds a valid pay on lives that were declared.
pub fn pays_are_valid()
    ensures { PaysAreValid }
{}

/// A premium line that passes all checks adds a valid pay on lives that were declared, whose
/// status exists at the start.
pub fn premiums_are_valid()
    ensures { PremiumsAreValid }
{}

/// A contract that a file writes is valid: its interest, its lives, each of which has a row at its
/// age, its pays, its premium, which exists at the start, and its reserves, each for lives that can
/// be alive then.
pub fn contracts_are_valid()
    ensures { ContractsAreValid }
{}

/// A file writes at most one contract.
pub fn contract_is_one()
    ensures { ContractIsOne }
{}

/// A file has at most one first fault: one line, and one kind there.
pub fn first_fault_is_one()
    ensures { FirstFaultIsOne }
{}

/// A file that writes a contract has no fault.
pub fn no_fault_is_first()
    ensures { NoFaultIsFirst }
{}

/// Every file writes a contract, or has a first fault.
pub fn contract_or_fault()
    ensures { ContractOrFault }
{}
