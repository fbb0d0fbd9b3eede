// Laws of the definitions: functions that do nothing, whose contracts are the laws.
ghost use Rattle.halo_table.specs.Laws.{FirstFaultIsOne, NoFaultIsFirst, NoFaultOrFirst, TablesAreSound};

/// A file has at most one first fault: one record, and one kind there.
pub fn first_fault_is_one()
    ensures { FirstFaultIsOne }
{}

/// A file without fault has no first fault.
pub fn no_fault_is_first()
    ensures { NoFaultIsFirst }
{}

/// Every file has no fault, and so its tables, or a first fault.
pub fn no_fault_or_first()
    ensures { NoFaultOrFirst }
{}

/// What a file without fault holds is sound: names and ages are as they have to be, no two
/// tables have one name, survivors fall by the leavers, and in the last row all leave.
pub fn tables_are_sound()
    ensures { TablesAreSound }
{}
