// The explanation of a contract: the parts of each pay.
ghost use Rattle.std.specs.Prelude.{◌≡◌, ◌^◌, ◌<◌, All, IfOk, length, map};
ghost use Rattle.std.specs.List.{AllZip};
ghost use Rattle.halo_status.specs.Pay.{pay_of};
ghost use Rattle.halo_contract.specs.PlainContract.{contract_of};
ghost use Rattle.halo_contract.specs.ValidContract.{IsValidContract};
ghost use Rattle.halo_compile.specs.Order.{AreSetsInOrder};
ghost use Rattle.halo_lines.specs.Parts.{ExplainsContract, ExplainsPay, IsPrintablePart, parts_of};
ghost use Rattle.halo_value.specs.Explained.{IsSettingAtStart};
ghost use Rattle.halo_value.specs.Setting.{CanBeValued, basis_of_setting};

use crate::Memory;
use crate::contract::group_of;
use crate::events::parts_of_insurance;
use crate::lives::declared_lives;
use crate::pays::Setting;
use crate::terms::parts_of_annuity;
use halo_compile::{Task, compile};
use halo_contract::Contract;
use halo_life::Work;
use halo_lines::Part;
use halo_model::horizon;
use halo_num::Steps;
use halo_status::{Kind, Pay};
use halo_sums::sets_in_order;
use halo_table::Tables;
use std::alloc::Global;
use std::marker::Brand;
use std::sync::ledger::{Blank, Ledger};

/// The parts of each pay of a contract, enclosed: what each coefficient of an annuity's form adds,
/// and what falls on each event of an insurance.
pub fn explanation(
    alloc: Global,
    tables: &Tables,
    contract: &Contract,
) -> Result<Vec<Vec<Part>>, Memory>
    requires { IsValidContract tables.now (contract_of contract.now) }
    ensures explains { IfOk result (λ told.
        ExplainsContract tables.now (contract_of contract.now) (parts_of told.items)) }
    ensures printable { IfOk result (λ told. All
        (All (IsPrintablePart (length (contract_of contract.now).lives))) (parts_of told.items)) }
{
    explained_counted::<Brand>(alloc, tables, contract, Blank::new(1))
}

// The parts, by the number of lives, counted in a ledger of its own.
fn explained_counted<L: Ledger>(
    alloc: Global,
    tables: &Tables,
    contract: &Contract,
    blank: Blank,
) -> Result<Vec<Vec<Part>>, Memory>
    requires name { blank.name ≡ L.name }
    requires parts { blank.parts ≡ L.parts }
    requires some { 0 < L.parts }
    requires valid { IsValidContract tables.now (contract_of contract.now) }
    ensures explains { IfOk result (λ told.
        ExplainsContract tables.now (contract_of contract.now) (parts_of told.items)) }
    ensures printable { IfOk result (λ told. All
        (All (IsPrintablePart (length (contract_of contract.now).lives))) (parts_of told.items)) }
{
    let mut steps = Steps::<L>::new(blank);
    match contract.lives.len() {
        1 => explained::<1, 2, L>(alloc, tables, contract, &mut steps),
        2 => explained::<2, 4, L>(alloc, tables, contract, &mut steps),
        3 => explained::<3, 8, L>(alloc, tables, contract, &mut steps),
        4 => explained::<4, 16, L>(alloc, tables, contract, &mut steps),
        5 => explained::<5, 32, L>(alloc, tables, contract, &mut steps),
        6 => explained::<6, 64, L>(alloc, tables, contract, &mut steps),
        7 => explained::<7, 128, L>(alloc, tables, contract, &mut steps),
        8 => explained::<8, 256, L>(alloc, tables, contract, &mut steps),
        9 => explained::<9, 512, L>(alloc, tables, contract, &mut steps),
        10 => explained::<10, 1024, L>(alloc, tables, contract, &mut steps),
        11 => explained::<11, 2048, L>(alloc, tables, contract, &mut steps),
        _ => explained::<12, 4096, L>(alloc, tables, contract, &mut steps),
    }
}

// The parts of each pay of a contract with N lives, of which there are M sets.
fn explained<const N: usize, const M: usize, L: Ledger>(
    alloc: Global,
    tables: &Tables,
    contract: &Contract,
    steps: &mut Steps<L>,
) -> Result<Vec<Vec<Part>>, Memory>
    requires lives { length (contract_of contract.now).lives ≡ N }
    requires sets { M ≡ 2 ^ N }
    requires valid { IsValidContract tables.now (contract_of contract.now) }
    ensures explains { IfOk result (λ told.
        ExplainsContract tables.now (contract_of contract.now) (parts_of told.items)) }
    ensures printable { IfOk result (λ told. All (All (IsPrintablePart N)) (parts_of told.items)) }
{
    let lives = declared_lives(alloc, &contract.lives)?;
    let group = group_of::<N>(tables, contract, &lives);
    let setting = Setting {
        group: &group,
        interest: &contract.interest,
        reserves: &[],
    };
    parts_of_pays::<N, M, L>(alloc, contract.pays.as_slice(), &setting, steps)
}

// The parts of each of some pays.
fn parts_of_pays<const N: usize, const M: usize, L: Ledger>(
    alloc: Global,
    pays: &[Pay],
    setting: &Setting<N>,
    steps: &mut Steps<L>,
) -> Result<Vec<Vec<Part>>, Memory>
    requires sets { M ≡ 2 ^ N }
    requires pays { All (CanBeValued N) (map pay_of pays.now) }
    requires start { IsSettingAtStart setting.now }
    ensures explains { IfOk result (λ told. AllZip
        (ExplainsPay (basis_of_setting setting.now)) (map pay_of pays.now) (parts_of told.items)) }
    ensures printable { IfOk result (λ told. All (All (IsPrintablePart N)) (parts_of told.items)) }
{
    let _start = setting.group.start();
    let sets = sets_in_order(alloc, N as u8)?;
    let mut work = Work::<M>::new(alloc)?;
    let mut told = Vec::new(alloc);
    for pay in pays {
        told.push(parts_of_pay(alloc, pay, setting, &sets, &mut work, steps)?)?;
    }
    Ok(told)
}

// The parts of a pay.
fn parts_of_pay<const N: usize, const M: usize, L: Ledger>(
    alloc: Global,
    pay: &Pay,
    setting: &Setting<N>,
    sets: &[u16],
    work: &mut Work<M>,
    steps: &mut Steps<L>,
) -> Result<Vec<Part>, Memory>
    requires sets { M ≡ 2 ^ N }
    requires pay { CanBeValued N (pay_of pay.now) }
    requires start { IsSettingAtStart setting.now }
    requires order { AreSetsInOrder N sets.now }
    ensures explains { IfOk result (λ parts. ExplainsPay
        (basis_of_setting setting.now) (pay_of pay.now) parts.items) }
    ensures printable { IfOk result (λ parts. All (IsPrintablePart N) parts.items) }
{
    let group = setting.group;
    let horizon = horizon(&pay.body, group.tables(), group.lives());
    let form = compile::<M>(alloc, pay, horizon)?;
    let task = Task {
        pay,
        form: &form,
        group,
        interest: setting.interest,
        horizon,
    };
    match pay.kind {
        Kind::Insurance => parts_of_insurance(alloc, &task, work, steps),
        Kind::Immediate | Kind::Due => parts_of_annuity(alloc, &task, sets, work, steps),
    }
}
