// What is told of a set of lives by its product over them: that of the set without its first life,
// times that life's.
ghost use Rattle.std.specs.Prelude.{ℕ, ◌+◌, ◌^◌, ◌<◌, ◌≤◌, pos};
ghost use Rattle.halo_num.specs.Ends.{IsWithin, fine};
ghost use Rattle.halo_chance.specs.Enclosed.{EachIsChance};
ghost use Rattle.halo_life.specs.YearOfLives.{HasSmaller};
ghost use Rattle.halo_endowment.specs.First.{IsByFirst};

use crate::sets::{first_of, without};
use halo_life::{MOST_LIVES, Work};
use halo_num::{Ival, Steps};
use std::sync::ledger::Ledger;

/// The chance of a set by that of the set without its first life, which stands in `plus`, and the
/// chance of that life. It makes one product.
pub fn with_first<const M: usize, L: Ledger>(
    lives: &[Ival; MOST_LIVES],
    set: u16,
    work: &Work<M>,
    steps: &mut Steps<L>,
) -> Ival
    requires sets { M ≤ 2 ^ MOST_LIVES }
    requires some { 0 < set }
    requires below { set < M }
    requires chances { EachIsChance MOST_LIVES lives.now }
    requires smaller { HasSmaller (λ part i. IsWithin i (pos 0) (pos fine)) set work.now.plus }
    ensures within { IsWithin result (pos 0) (pos fine) }
    ensures product { IsByFirst lives.now set work.now.plus result }
    ensures cost { steps.new ≤ steps.old + 1 }
{
    let first = first_of(set);
    let others = work.plus(without(set, first));
    others.mul(lives[usize::from(first)], steps)
}
