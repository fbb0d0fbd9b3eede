// Laws of the lines: functions that do nothing, whose contracts are the laws.
ghost use Rattle.halo_lines.specs.Report.{ContractsHaveReports};
ghost use Rattle.halo_lines.specs.Values.{ValuesHaveRoom};

/// The values of pays within the limits of contracts have room in the sums of the lines.
pub fn values_have_room()
    ensures { ValuesHaveRoom }
{}

/// Each contract that can be valued has a report whose lines enclose what it is worth.
pub fn contracts_have_reports()
    ensures { ContractsHaveReports }
{}
