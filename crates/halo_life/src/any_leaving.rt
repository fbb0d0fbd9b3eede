// That one of a set of lives leaves in a year, whoever is the first.
ghost use Rattle.std.specs.Prelude.{◌≡◌, ℕ, ◌<◌, pos, true};
ghost use Rattle.halo_num.specs.Ends.{IsWithin, fine};
ghost use Rattle.halo_sums.specs.Within.{is_within};
ghost use Rattle.halo_life.specs.Complement.{complement};
ghost use Rattle.halo_life.specs.Lists.{entry};

use crate::work::Work;
use halo_num::{Ival, ONE_IN_FINE_UNITS};
use halo_sums::next_within;

impl<const M: usize> Work<M> {
    /// Makes the entry of `leavings` of each set within `named` 1 less that of `survivals`, and
    /// leaves the other lists: where `survivals` has the chances that all of a set survive a year,
    /// these are the chances that one of it leaves in it, by whatever cause.
    pub fn leave_or_survive(&mut self, named: u16)
        requires named { named < M }
        requires chances { (mask : ℕ) → is_within mask named ≡ true →
            IsWithin (entry self.old.survivals mask) (pos 0) (pos fine) }
        ensures chances { (mask : ℕ) → is_within mask named ≡ true →
            entry self.new.leavings mask ≡ complement (entry self.old.survivals mask) }
        ensures survivals { self.new.survivals ≡ self.old.survivals }
        ensures plus { self.new.plus ≡ self.old.plus }
        ensures minus { self.new.minus ≡ self.old.minus }
    {
        let mut set = 0;
        self.put_leaving(set, complement(self.at(set)));
        while set != named {
            set = next_within(set, named);
            self.put_leaving(set, complement(self.at(set)));
        }
    }
}

// The chance that something does not happen, by the chance that it does.
fn complement(chance: Ival) -> Ival
    requires { IsWithin chance (pos 0) (pos fine) }
    ensures { result ≡ complement chance }
{
    Ival::exact(ONE_IN_FINE_UNITS).sub(chance)
}
