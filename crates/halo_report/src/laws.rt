// Laws of the texts: functions that do nothing, whose contracts are the laws.
ghost use Rattle.halo_report.specs.Laws.{ColumnsArePrintable, PrintedEntriesEnclose};

/// The columns of a table can be printed, and what is printed of an entry encloses it no wider than
/// its width rounded outward.
pub fn printed_columns()
    ensures printable { ColumnsArePrintable }
    ensures enclose { PrintedEntriesEnclose }
{}
