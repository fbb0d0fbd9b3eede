// The values of the pays of a contract, and of its premium.
ghost use Rattle.std.specs.Prelude.{◌≡◌, ◌^◌, All, IfOk, map};
ghost use Rattle.std.specs.List.{AllZip};
ghost use Rattle.std.specs.Option.{option_map};
ghost use Rattle.halo_status.specs.Pay.{pay_of};
ghost use Rattle.halo_value.specs.PayValues.{AreValuesOf, ArePremiumValues, HasOne};
ghost use Rattle.halo_value.specs.Reading.{CanBeRead};
ghost use Rattle.halo_value.specs.Setting.{CanBeAsked, CanBeValued, basis_of_setting};

use crate::Memory;
use crate::along::{goes_along_the_tree, values_along};
use crate::pass::{PayValues, pass};
use halo_along::TreeTask;
use halo_compile::{Task, compile};
use halo_contract::ReserveLine;
use halo_interest::Interest;
use halo_life::{Group, Work};
use halo_model::horizon;
use halo_num::Steps;
use halo_status::Pay;
use std::alloc::Global;
use std::sync::ledger::Ledger;

/// What all pays of a contract are valued with.
#[derive(Clone, Copy)]
pub struct Setting<'a, const N: usize> {
    /// The lives, and the rule for ties.
    pub group: &'a Group<'a, N>,
    /// The interest of each year.
    pub interest: &'a Interest,
    /// The reserves at whose times values are read.
    pub reserves: &'a [ReserveLine],
}

/// The values of a pay at the start and at each reserve: along the tree of its body, where that is
/// the cheaper way, and else in one pass over all sets of the lives that it names. That of a
/// premium of 1 is at least 1 at the start.
pub fn values_of_pay<const N: usize, const M: usize, L: Ledger>(
    alloc: Global,
    pay: &Pay,
    setting: &Setting<N>,
    work: &mut Work<M>,
    steps: &mut Steps<L>,
) -> Result<PayValues, Memory>
    requires sets { M ≡ 2 ^ N }
    requires pay { CanBeValued N (pay_of pay.now) }
    requires reserves { All (CanBeRead N setting.now.group.now) setting.now.reserves.now }
    ensures encloses { IfOk result (λ values. AreValuesOf
        (basis_of_setting setting.now) setting.now.reserves.now (pay_of pay.now) values) }
    ensures one { IfOk result (λ values. HasOne N (pay_of pay.now) values) }
{
    let group = setting.group;
    let horizon = horizon(&pay.body, group.tables(), group.lives());
    let along = TreeTask {
        pay,
        group,
        interest: setting.interest,
        horizon,
    };
    if goes_along_the_tree(&along, setting.reserves.len().saturating_add(1)) {
        return values_along(alloc, &along, setting.reserves, steps);
    }
    let form = compile::<M>(alloc, pay, horizon)?;
    let task = Task {
        pay,
        form: &form,
        group,
        interest: setting.interest,
        horizon,
    };
    pass(alloc, &task, setting.reserves, work, steps)
}

/// The values of each pay.
pub fn values_of_pays<const N: usize, const M: usize, L: Ledger>(
    alloc: Global,
    pays: &[Pay],
    setting: &Setting<N>,
    work: &mut Work<M>,
    steps: &mut Steps<L>,
) -> Result<Vec<PayValues>, Memory>
    requires sets { M ≡ 2 ^ N }
    requires pays { All (CanBeValued N) (map pay_of pays.now) }
    requires reserves { All (CanBeRead N setting.now.group.now) setting.now.reserves.now }
    ensures { IfOk result (λ values. AllZip
        (AreValuesOf (basis_of_setting setting.now) setting.now.reserves.now)
        (map pay_of pays.now) values.items) }
{
    let mut values = Vec::new(alloc);
    for pay in pays {
        values.push(values_of_pay(alloc, pay, setting, work, steps)?)?;
    }
    Ok(values)
}

/// The values of what a premium of 1 pays, if a premium is asked for.
pub fn values_of_premium<const N: usize, const M: usize, L: Ledger>(
    alloc: Global,
    premium: &Option<Pay>,
    setting: &Setting<N>,
    work: &mut Work<M>,
    steps: &mut Steps<L>,
) -> Result<Option<PayValues>, Memory>
    requires sets { M ≡ 2 ^ N }
    requires premium { CanBeAsked N (option_map pay_of premium.now) }
    requires reserves { All (CanBeRead N setting.now.group.now) setting.now.reserves.now }
    ensures { IfOk result (λ values. ArePremiumValues
        (basis_of_setting setting.now) setting.now.reserves.now
        (option_map pay_of premium.now) values) }
{
    match premium {
        None => Ok(None),
        Some(pay) => Ok(Some(values_of_pay(alloc, pay, setting, work, steps)?)),
    }
}
