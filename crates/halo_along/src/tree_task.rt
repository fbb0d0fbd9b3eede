// What is valued along the tree of its body.
ghost use Rattle.std.specs.Prelude.{◌≡◌};

use halo_compile::Task;
use halo_interest::Interest;
use halo_life::Group;
use halo_status::Pay;

/// A pay whose body is read once, to be valued along its tree.
#[derive(Clone, Copy)]
pub struct TreeTask<'a, const N: usize> {
    /// The pay. It is valued for an amount of 1, whatever its own amount.
    pub pay: &'a Pay,
    /// The lives of the contract.
    pub group: &'a Group<'a, N>,
    /// The interest of each year.
    pub interest: &'a Interest,
    /// The horizon of the pay's body on these lives, in years from time 0.
    pub horizon: u16,
}

impl<'a, const N: usize> TreeTask<'a, N> {
    ghost use Rattle.halo_status.specs.Pay.{pay_of};
    ghost use Rattle.halo_status.specs.ReadOnce.{IsReadOnce};
    ghost use Rattle.halo_compile.specs.ValidTask.{IsTask};
    ghost use Rattle.halo_along.specs.Along.{IsTreeTask};
    ghost use Rattle.halo_along.specs.OfTask.{tree_task_of};

    /// What of a task is valued along the tree of its body: all but its form.
    pub fn of<const M: usize>(task: &Task<'a, N, M>) -> TreeTask<'a, N>
        ensures value { result ≡ tree_task_of task.now }
        ensures valid { IsTask task.now → IsReadOnce (pay_of task.now.pay.now).body →
            IsTreeTask result }
    {
        TreeTask {
            pay: task.pay,
            group: task.group,
            interest: task.interest,
            horizon: task.horizon,
        }
    }
}
