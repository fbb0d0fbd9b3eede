// Reading off the values of a pay at the times of the reserves.
ghost use Rattle.std.specs.Prelude.{◌≡◌, ℕ, suc, ◌<◌, ◌≤◌, All, length};
ghost use Rattle.halo_sums.specs.Masks.{has_bit};
ghost use Rattle.halo_compile.specs.ValidTask.{IsTask};
ghost use Rattle.halo_value.specs.ByKind.{EnclosesTask, HoldOf};
ghost use Rattle.halo_value.specs.Reading.{AreReadFrom, CanBeRead};

use crate::by_kind::value_at;
use halo_compile::Task;
use halo_contract::ReserveLine;
use halo_life::Work;
use halo_num::Ival;

/// Writes the value of the pay at each reserve whose time is one from `from` to `to`, for all of
/// which the lists hold the values. The values of later reserves stay.
pub fn read<const N: usize, const M: usize>(
    task: &Task<N, M>,
    from: u16,
    to: u16,
    reserves: &[ReserveLine],
    work: &Work<M>,
    values: &mut [Ival],
)
    requires task { IsTask task.now }
    requires times { from ≤ to }
    requires values { (t : ℕ) → from ≤ t → t ≤ to → HoldOf task.now t work.now }
    requires reserves { All (CanBeRead N task.now.group.now) reserves.now }
    requires room { length values.old ≡ length reserves.now }
    ensures { AreReadFrom task.now reserves.now (suc to) values.old
        → AreReadFrom task.now reserves.now from values.new }
{
    for place in 0..reserves.len() {
        values[place] = read_one(task, from, to, reserves[place], work, values[place]);
    }
}

// The value at a reserve whose time is one from `from` to `to`, and else the value that it had.
fn read_one<const N: usize, const M: usize>(
    task: &Task<N, M>,
    from: u16,
    to: u16,
    reserve: ReserveLine,
    work: &Work<M>,
    value: Ival,
) -> Ival
    requires task { IsTask task.now }
    requires values { (t : ℕ) → from ≤ t → t ≤ to → HoldOf task.now t work.now }
    requires reserve { CanBeRead N task.now.group.now reserve }
    ensures { (to < reserve.time → EnclosesTask task.now reserve.time (has_bit reserve.alive) value)
        → from ≤ reserve.time
        → EnclosesTask task.now reserve.time (has_bit reserve.alive) result }
{
    if from <= reserve.time && reserve.time <= to {
        value_at(task, reserve.time, reserve.alive, work)
    } else {
        value
    }
}
