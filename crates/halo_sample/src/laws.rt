// Laws of the sample: functions that do nothing, whose contracts are the laws.
ghost use Rattle.halo_sample.specs.Laws.{ContractIsWords, DrawsAreBelow, RecordsAreCounted, RecordsAreRows, TablesAreRecords, TablesAreSound};

/// In every table of a sample there is a row for each age. Before the last age fewer than one
/// twentieth of those alive leave, so that more than a million are alive at each age, and never
/// more than at the age before; at the last age all leave.
pub fn tables_are_sound()
    ensures { TablesAreSound }
{}

/// The tables file is the lines of its records: the header, and one of five fields for each row.
/// Behind the header stand those of the rows, table by table and age by age.
pub fn tables_are_records()
    ensures text { TablesAreRecords }
    ensures count { RecordsAreCounted }
    ensures rows { RecordsAreRows }
{}

/// The contract file is the lines of its words.
pub fn contract_is_words()
    ensures { ContractIsWords }
{}

/// A number that is drawn below another is below it.
pub fn draws_are_below()
    ensures { DrawsAreBelow }
{}
