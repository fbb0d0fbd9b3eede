// The report of a contract with a number of lives.
ghost use Rattle.std.specs.Prelude.{◌≡◌, ◌^◌, IfOk, length};
ghost use Rattle.halo_contract.specs.PlainContract.{contract_of};
ghost use Rattle.halo_contract.specs.ValidContract.{IsValidContract};
ghost use Rattle.halo_lines.specs.Printable.{IsPrintableReport};
ghost use Rattle.halo_lines.specs.Report.{EnclosesContract, report_of};
ghost use Rattle.halo_value.specs.Setting.{declared, group_at_start};

use crate::Memory;
use crate::lines::report_lines;
use crate::lives::declared_lives;
use crate::pass::ALL_LIVES;
use crate::pays::{Setting, values_of_pays, values_of_premium};
use halo_contract::{Contract, Ties};
use halo_life::{Group, Work};
use halo_lines::ValueReport;
use halo_num::Steps;
use halo_table::{Life, Tables};
use std::alloc::Global;
use std::sync::ledger::Ledger;

/// The report of a contract with N lives, of which there are M sets.
pub fn report<const N: usize, const M: usize, L: Ledger>(
    alloc: Global,
    tables: &Tables,
    contract: &Contract,
    steps: &mut Steps<L>,
) -> Result<ValueReport, Memory>
    requires lives { length (contract_of contract.now).lives ≡ N }
    requires sets { M ≡ 2 ^ N }
    requires valid { IsValidContract tables.now (contract_of contract.now) }
    ensures encloses { IfOk result (λ report.
        EnclosesContract tables.now (contract_of contract.now) (report_of report)) }
    ensures printable { IfOk result (λ report. IsPrintableReport (report_of report)) }
{
    let lives = declared_lives(alloc, &contract.lives)?;
    let group = group_of::<N>(tables, contract, &lives);
    // The proof sees here that the tables are sound.
    let _start = group.start();
    let pays = contract.pays.as_slice();
    let reserves = contract.reserves.as_slice();
    let setting = Setting {
        group: &group,
        interest: &contract.interest,
        reserves,
    };
    let mut work = Work::<M>::new(alloc)?;
    let values = values_of_pays(alloc, pays, &setting, &mut work, steps)?;
    let due = values_of_premium(alloc, &contract.premium, &setting, &mut work, steps)?;
    report_lines(alloc, pays, reserves, &values, due, steps)
}

/// The lives of a contract at the start, all of them alive, with its rule for ties.
pub fn group_of<'a, const N: usize>(
    tables: &'a Tables,
    contract: &Contract,
    lives: &'a [Life],
) -> Group<'a, N>
    requires valid { IsValidContract tables.now (contract_of contract.now) }
    requires count { length (contract_of contract.now).lives ≡ N }
    requires lives { lives.now ≡ declared (contract_of contract.now).lives }
    ensures { result ≡ group_at_start tables.now (contract_of contract.now) }
{
    let group = Group::new(tables, lives, 0, ALL_LIVES);
    match contract.ties {
        Ties::Declared => group,
        Ties::Even => group.even(),
    }
}
