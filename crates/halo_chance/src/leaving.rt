// What a status loses with a life: the chance that it exists with that life there, less the chance
// that it exists with that life not there.

ghost use Rattle.std.specs.Prelude.{◌≡◌, ℕ, ◌+◌, ◌-◌, ◌*◌, ◌^◌, ◌<◌, ◌≤◌, length, pos};
ghost use Rattle.halo_num.specs.Ends.{fine, IsWithin};
ghost use Rattle.halo_num.specs.Chance.{EnclosesChance};
ghost use Rattle.halo_status.specs.Naming.{NamesLivesBelow};
ghost use Rattle.halo_status.specs.Nodes.{nodes};
ghost use Rattle.halo_status.specs.StatusTree.{tree_of};
ghost use Rattle.halo_status.specs.View.{is_on};
ghost use Rattle.halo_chance.specs.Enclosed.{EachIsChance};
ghost use Rattle.halo_chance.specs.Loss.{EnclosesLoss};

use crate::along::chance;
use halo_num::{Ival, ONE_IN_FINE_UNITS, Steps};
use halo_status::{Status, View};
use std::sync::ledger::Ledger;

/// What a status loses at time `t` of the view with life `a`, where each other life i is there with
/// the chance `lives[i]`, from 0 to 1: its chance with that life there less its chance with that
/// life not there, where that is not negative. The entries are at return what they were.
pub fn loss<L: Ledger>(
    body: &Status,
    a: u8,
    lives: &mut [Ival],
    view: View,
    t: u16,
    steps: &mut Steps<L>,
) -> Ival
    requires named { NamesLivesBelow (length lives.old) (tree_of body.now) }
    requires life { a < length lives.old }
    requires chances { EachIsChance (length lives.old) lives.old }
    ensures loss { EnclosesLoss lives.old (is_on view t) a (tree_of body.now) result }
    ensures within { IsWithin result (pos 0) (pos fine) }
    ensures lives { lives.new ≡ lives.old }
    ensures cost { steps.new ≤ steps.old + 4 * (nodes (tree_of body.now) + 1) ^ 2 }
{
    let place = usize::from(a);
    let own = lives[place];
    lives[place] = Ival::exact(ONE_IN_FINE_UNITS);
    let with = chance(body, lives, view, t, steps);
    lives[place] = Ival::exact(0);
    let without = chance(body, lives, view, t, steps);
    lives[place] = own;
    fall(with, without)
}

// The fall of a chance to one that is not greater.
pub(crate) fn fall(from: Ival, to: Ival) -> Ival
    requires from { IsWithin from (pos 0) (pos fine) }
    requires to { IsWithin to (pos 0) (pos fine) }
    ensures chance { (n m d v w : ℕ) → 0 < d → m ≤ n →
        EnclosesChance n d v from → EnclosesChance m d w to →
        EnclosesChance (n - m) d (v + w) result }
    ensures within { IsWithin result (pos 0) (pos fine) }
{
    let difference = from.sub(to);
    if difference.hi() < 0 {
        Ival::exact(0)
    } else {
        difference.clamp(0, ONE_IN_FINE_UNITS)
    }
}
