// The chances that the first of a set to leave in a year counts.
ghost use Rattle.std.specs.Prelude.{◌≡◌, ◌+◌, ◌^◌, ◌<◌, ◌≤◌};
ghost use Rattle.halo_sums.specs.Masks.{bits};
ghost use Rattle.halo_sums.specs.Sets.{size_of};
ghost use Rattle.halo_model.specs.Chance.{asked};
ghost use Rattle.halo_model.specs.FromTables.{lives_of};
ghost use Rattle.halo_life.specs.YearOfSets.{EncloseLeavings, EncloseSurvivals, products_of_leavings};

use halo_interest::LAST_TIME;
use halo_life::{Group, Work};
use halo_num::Steps;
use std::sync::ledger::Ledger;

/// For each set of named lives that are all alive at time `k`, the probability that the first of
/// them to leave in year `k` counts, as `Group::leavings` gives it, by the chances in `survivals`
/// that all of them survive the year.
///
/// Where each named life counts by any cause, it is 1 less that chance, whoever is the first, and
/// takes no product.
pub(crate) fn leavings<const N: usize, const M: usize, L: Ledger>(
    group: &Group<N>,
    k: u16,
    named: u16,
    counted: u16,
    causes: Option<u8>,
    into: &mut Work<M>,
    steps: &mut Steps<L>,
)
    requires sets { M ≡ 2 ^ N }
    requires named { named < M }
    requires year { k < LAST_TIME }
    requires survivals { EncloseSurvivals N (lives_of group.now.file group.now.lives) k named
        into.old.survivals }
    ensures chances { EncloseLeavings group.now.ties N (lives_of group.now.file group.now.lives) k
        named counted (asked causes) into.new.leavings }
    ensures survivals { into.new.survivals ≡ into.old.survivals }
    ensures plus { into.new.plus ≡ into.old.plus }
    ensures minus { into.new.minus ≡ into.old.minus }
    ensures cost { steps.new ≤
        steps.old + products_of_leavings group.now.ties (size_of (bits N named)) }
{
    // The proof sees here that the lives have rows.
    let _start = group.start();
    if counted == named && causes.is_none() {
        into.leave_or_survive(named);
    } else {
        group.leavings(k, named, counted, causes, into, steps);
    }
}
