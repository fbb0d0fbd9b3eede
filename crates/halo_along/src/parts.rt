// What falls on one event of an insurance, along the tree of its body, where the lives of one year
// leave in the declared order.
ghost use Rattle.std.specs.Prelude.{◌≡◌, ◌+◌, ◌<◌, ◌≤◌, false};
ghost use Rattle.halo_interest.specs.declared.powers.TheConstants.{LAST_TIME};
ghost use Rattle.halo_status.specs.Pay.{pay_of};
ghost use Rattle.halo_status.specs.declared.pay.Kind.TheVariants.{Insurance};
ghost use Rattle.halo_model.specs.SetValue.{can_fall_on_life, can_fall_on_term};
ghost use Rattle.halo_life.specs.Lists.{nothing};
ghost use Rattle.halo_along.specs.Along.{IsTreeTask, products_along};
ghost use Rattle.halo_along.specs.Parts.{EnclosesWorthOnLife, EnclosesWorthOnTerm};

use crate::contingent::value_of_life;
use crate::ending::{discount_to, value_of_end};
use crate::tree_task::TreeTask;
use halo_compile::{between, can_fall_on_term, greatest_factor};
use halo_interest::LAST_TIME;
use halo_num::{Ival, Steps};
use std::sync::ledger::Ledger;

/// What of the value of an insurance of 1 falls on the leaving of a life, at the time of the group
/// with the lives alive that it says. The rule for ties of the group is not looked at.
///
/// It is no wider than the count of the insurance, and from 0 to the most that it can be worth;
/// where no payment can fall on that leaving it is exactly 0. With m nodes in the body and a
/// horizon of H years the counter is raised by at most 16 (H + 1) (m + 1)^2.
pub fn on_life_along<const N: usize, L: Ledger>(
    along: &TreeTask<N>,
    life: u8,
    steps: &mut Steps<L>,
) -> Ival
    requires along { IsTreeTask along.now }
    requires insurance { along.now.pay.now.kind ≡ Insurance }
    requires life { life < N }
    ensures encloses { EnclosesWorthOnLife along.now life result }
    ensures none { can_fall_on_life (pay_of along.now.pay.now) life ≡ false → result ≡ nothing }
    ensures cost { steps.new ≤ steps.old + products_along along.now }
{
    // The proof sees here that the lives have rows, and that each year has a fraction.
    let _start = along.group.start();
    let _fractions = along.interest.fractions();
    let part = value_of_life(along, life, steps);
    let most = greatest_factor(along.pay.vary, along.horizon);
    between(part, 0, u64::from(most))
}

/// What of the value of an insurance of 1 falls on the end of a term of `n` years: as
/// `on_life_along`, and exactly 0 where no payment can fall on that end.
pub fn on_term_along<const N: usize, L: Ledger>(
    along: &TreeTask<N>,
    n: u16,
    steps: &mut Steps<L>,
) -> Ival
    requires along { IsTreeTask along.now }
    requires insurance { along.now.pay.now.kind ≡ Insurance }
    requires some { 1 ≤ n }
    requires time { n ≤ LAST_TIME }
    ensures encloses { EnclosesWorthOnTerm along.now n result }
    ensures none { can_fall_on_term (pay_of along.now.pay.now) n ≡ false → result ≡ nothing }
    ensures cost { steps.new ≤ steps.old + products_along along.now }
{
    // The proof sees here that the lives have rows, and that each year has a fraction.
    let _start = along.group.start();
    let _fractions = along.interest.fractions();
    if !can_fall_on_term(along.pay, n) {
        return Ival::exact(0);
    }
    if n <= along.group.start() {
        return Ival::exact(0);
    }
    let discount = discount_to(along, n, steps);
    let part = value_of_end(along, n - 1, discount, steps);
    let most = greatest_factor(along.pay.vary, along.horizon);
    between(part, 0, u64::from(most))
}
