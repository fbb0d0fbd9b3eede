// The report of any contract.
ghost use Rattle.std.specs.Prelude.{◌≡◌, ◌<◌, IfOk};
ghost use Rattle.halo_contract.specs.PlainContract.{contract_of};
ghost use Rattle.halo_contract.specs.ValidContract.{IsValidContract};
ghost use Rattle.halo_lines.specs.Printable.{IsPrintableReport};
ghost use Rattle.halo_lines.specs.Report.{EnclosesContract, report_of};

use crate::Memory;
use crate::contract::report;
use halo_contract::Contract;
use halo_lines::ValueReport;
use halo_num::Steps;
use halo_table::Tables;
use std::alloc::Global;
use std::marker::Brand;
use std::sync::ledger::{Blank, Ledger};

/// The report of a contract: each pay, the total, the premium and each reserve, enclosed.
pub fn value_report(
    alloc: Global,
    tables: &Tables,
    contract: &Contract,
) -> Result<ValueReport, Memory>
    requires { IsValidContract tables.now (contract_of contract.now) }
    ensures encloses { IfOk result (λ report.
        EnclosesContract tables.now (contract_of contract.now) (report_of report)) }
    ensures printable { IfOk result (λ report. IsPrintableReport (report_of report)) }
{
    report_counted::<Brand>(alloc, tables, contract, Blank::new(1))
}

// The report, by the number of lives, counted in a ledger of its own.
fn report_counted<L: Ledger>(
    alloc: Global,
    tables: &Tables,
    contract: &Contract,
    blank: Blank,
) -> Result<ValueReport, Memory>
    requires name { blank.name ≡ L.name }
    requires parts { blank.parts ≡ L.parts }
    requires some { 0 < L.parts }
    requires valid { IsValidContract tables.now (contract_of contract.now) }
    ensures encloses { IfOk result (λ report.
        EnclosesContract tables.now (contract_of contract.now) (report_of report)) }
    ensures printable { IfOk result (λ report. IsPrintableReport (report_of report)) }
{
    let mut steps = Steps::<L>::new(blank);
    match contract.lives.len() {
        1 => report::<1, 2, L>(alloc, tables, contract, &mut steps),
        2 => report::<2, 4, L>(alloc, tables, contract, &mut steps),
        3 => report::<3, 8, L>(alloc, tables, contract, &mut steps),
        4 => report::<4, 16, L>(alloc, tables, contract, &mut steps),
        5 => report::<5, 32, L>(alloc, tables, contract, &mut steps),
        6 => report::<6, 64, L>(alloc, tables, contract, &mut steps),
        7 => report::<7, 128, L>(alloc, tables, contract, &mut steps),
        8 => report::<8, 256, L>(alloc, tables, contract, &mut steps),
        9 => report::<9, 512, L>(alloc, tables, contract, &mut steps),
        10 => report::<10, 1024, L>(alloc, tables, contract, &mut steps),
        11 => report::<11, 2048, L>(alloc, tables, contract, &mut steps),
        _ => report::<12, 4096, L>(alloc, tables, contract, &mut steps),
    }
}
