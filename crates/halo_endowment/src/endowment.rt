// The pure endowments of all sets within a set of lives.
ghost use Rattle.std.specs.Prelude.{◌≡◌, ℕ, ◌+◌, ◌-◌, ◌^◌, ◌<◌, ◌≤◌, nat_lt, pos};
ghost use Rattle.halo_num.specs.Ends.{IsWithin, fine};
ghost use Rattle.halo_interest.specs.Powers.{IsPower};
ghost use Rattle.halo_sums.specs.Masks.{bits, has_bit};
ghost use Rattle.halo_sums.specs.Sets.{size_of};
ghost use Rattle.halo_model.specs.Basis.{Basis};
ghost use Rattle.halo_model.specs.FromTables.{lives_of};
ghost use Rattle.halo_life.specs.Lists.{entry};
ghost use Rattle.halo_life.specs.PlainGroup.{survivors_in};
ghost use Rattle.halo_endowment.specs.Endowment.{HoldEndowmentsOf};

use crate::first::with_first;
use halo_along::survivals;
use halo_interest::LAST_TIME;
use halo_life::{Group, Work};
use halo_num::{Ival, Steps};
use halo_sums::next_within;
use std::sync::ledger::Ledger;

/// Puts into `plus` the pure endowment of each set within `named`: the value at the time of the
/// group, at which all its lives are alive that have a row, of 1 paid at time `t` if all of the set
/// are alive then. `discount` is the discount factor from one time to the other. The entries of
/// `minus` stay.
///
/// It makes one product for each set: ₙE_xy = v^n · ₙp_x · ₙp_y.
pub fn endowments<const N: usize, const M: usize, L: Ledger>(
    group: &Group<N>,
    named: u16,
    t: u16,
    discount: Ival,
    work: &mut Work<M>,
    steps: &mut Steps<L>,
)
    requires sets { M ≡ 2 ^ N }
    requires named { named < M }
    requires from { group.now.start ≤ t }
    requires time { t ≤ LAST_TIME }
    requires living { (i : ℕ) → i < N →
        has_bit group.now.alive i ≡ nat_lt 0 (survivors_in group.now group.now.start i) }
    requires discount { IsWithin discount (pos 0) (pos fine) }
    ensures endowments { (b : Basis) → b.lives ≡ lives_of group.now.file group.now.lives →
        IsPower b.q (λ k. b.p k + b.q k) group.now.start (t - group.now.start) discount →
        HoldEndowmentsOf b N group.now.start t named work.new }
    ensures minus { (mask : ℕ) → entry work.new.minus mask ≡ entry work.old.minus mask }
    ensures cost { steps.new ≤ steps.old + 2 ^ size_of (bits N named) }
{
    // The proof sees here that the lives have rows.
    let _start = group.start();
    let lives = survivals(group, t);
    work.put_plus(0, discount);
    let mut set = 0;
    while set != named {
        set = next_within(set, named);
        let endowment = with_first(&lives, set, work, steps);
        work.put_plus(set, endowment);
    }
}
