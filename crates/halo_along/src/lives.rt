// The chances of the lives of a group.
ghost use Rattle.std.specs.Prelude.{◌≤◌};
ghost use Rattle.halo_chance.specs.Enclosed.{EachIsChance};
ghost use Rattle.halo_along.specs.Lives.{EncloseSurvival};

use halo_interest::LAST_TIME;
use halo_life::{Group, MOST_LIVES};
use halo_num::Ival;

/// The probabilities that the lives are alive at time `t`, each by the number of its life and at
/// most 1 fine unit wide: exactly 0 for a life that is not alive at the group's time.
pub fn survivals<const N: usize>(group: &Group<N>, t: u16) -> [Ival; MOST_LIVES]
    requires from { group.now.start ≤ t }
    requires time { t ≤ LAST_TIME }
    ensures chances { EachIsChance MOST_LIVES result }
    ensures survivals { EncloseSurvival group.now t N result }
{
    let _start = group.start();
    let mut survivals = [Ival::exact(0); MOST_LIVES];
    for i in 0..N as u8 {
        survivals[usize::from(i)] = group.survive(i, t);
    }
    survivals
}
