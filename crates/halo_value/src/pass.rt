// One pass over the years of a pay, from its horizon back to the start.
ghost use Rattle.std.specs.Prelude.{All, IfOk, pos, ◌≤ℤ◌};
ghost use Rattle.halo_num.specs.Ends.{fine};
ghost use Rattle.halo_status.specs.Pay.{pay_of};
ghost use Rattle.halo_compile.specs.OfTask.{basis_of_task};
ghost use Rattle.halo_compile.specs.ValidTask.{IsTask};
ghost use Rattle.halo_along.specs.AtOnce.{PaysAtOnce};
ghost use Rattle.halo_value.specs.PayValues.{AreValuesOf};
ghost use Rattle.halo_value.specs.Reading.{CanBeRead};

use crate::Memory;
use crate::by_kind::{at_horizon, value_at, year_back};
use crate::reading::read;
use halo_compile::Task;
use halo_contract::ReserveLine;
use halo_interest::LAST_TIME;
use halo_life::Work;
use halo_num::{Ival, Steps};
use std::alloc::Global;
use std::sync::ledger::Ledger;

/// The set of twelve lives, which has all lives of each contract.
pub const ALL_LIVES: u16 = 0xFFF;

/// What a pay is worth, with amount 1.
#[derive(Drop)]
pub struct PayValues {
    /// At the start, with all lives alive.
    pub start: Ival,
    /// At the time of each reserve, with the lives of its set alive.
    pub later: Vec<Ival>,
}

/// The values of a pay at the start and at each reserve, in one pass.
///
/// The value of a level annuity-due without deferral, on a status that exists at the start, is at
/// least 1 then.
pub fn pass<const N: usize, const M: usize, L: Ledger>(
    alloc: Global,
    task: &Task<N, M>,
    reserves: &[ReserveLine],
    work: &mut Work<M>,
    steps: &mut Steps<L>,
) -> Result<PayValues, Memory>
    requires task { IsTask task.now }
    requires reserves { All (CanBeRead N task.now.group.now) reserves.now }
    ensures encloses { IfOk result (λ values.
        let basis = basis_of_task task.now task.now.group.now.ties in
        AreValuesOf basis reserves.now (pay_of task.now.pay.now) values) }
    ensures one { IfOk result (λ values.
        PaysAtOnce task.now.pay.now 0 ALL_LIVES → pos fine ≤ℤ values.start.lo) }
{
    // The proof sees here that each life has a row at its age.
    let _start = task.group.start();
    let mut later = vec![in alloc; Ival::exact(0); reserves.len()]?;
    let horizon = task.horizon;
    at_horizon(task, work);
    read(task, horizon, LAST_TIME, reserves, work, &mut later);
    for back in 0..horizon {
        let t = horizon - 1 - back;
        year_back(task, t, work, steps);
        read(task, t, t, reserves, work, &mut later);
    }
    let start = value_at(task, 0, ALL_LIVES, work);
    Ok(PayValues { start, later })
}
