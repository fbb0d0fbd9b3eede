// The chances of one life from the time of its group on.
ghost use Rattle.std.specs.Prelude.{◌≡◌, ◌≤◌, ◌<◌, false, pos, true};
ghost use Rattle.halo_sums.specs.Masks.{has_bit};
ghost use Rattle.halo_num.specs.Chance.{EnclosesChance};
ghost use Rattle.halo_num.specs.Ends.{fine};
ghost use Rattle.halo_model.specs.Chance.{asked};
ghost use Rattle.halo_model.specs.FromTables.{lives_of};
ghost use Rattle.halo_model.specs.Independent.{started_of, survivors_of};
ghost use Rattle.halo_model.specs.PartsByTree.{leavers_of};
ghost use Rattle.halo_life.specs.Lists.{nothing};
ghost use Rattle.halo_life.specs.PlainGroup.{leaving, started, surviving};

use crate::group::Group;
use halo_interest::LAST_TIME;
use halo_num::Ival;
use halo_sums::has_bit;

impl<'a, const N: usize> Group<'a, N> {
    /// The probability that life `i` is alive at time `t`, at most 1 fine unit wide: exactly 0 for
    /// a life that is not alive at the group's time, and exactly 1 at that time for one that is.
    /// From the start of a contract it is ₜp_x = l_(x+t) / l_x.
    pub fn survive(&self, i: u8, t: u16) -> Ival
        requires life { i < N }
        requires from { self.now.start ≤ t }
        requires time { t ≤ LAST_TIME }
        ensures chance { EnclosesChance (surviving self.now t i) (started self.now i) 1 result }
        ensures along_tree { let lives = lives_of self.now.file self.now.lives in
            EnclosesChance (survivors_of (λ j. t) (has_bit self.now.alive) lives i)
            (started_of self.now.start (has_bit self.now.alive) lives i) 1 result }
        ensures gone { has_bit self.now.alive i ≡ false → result ≡ nothing }
        ensures sure { has_bit self.now.alive i ≡ true → t ≡ self.now.start →
            result ≡ record { lo = pos fine; hi = pos fine } }
    {
        if !has_bit(self.alive(), i) {
            return Ival::exact(0);
        }
        Ival::ratio(self.survivors(i, t), self.survivors(i, self.start()))
    }

    /// The probability that life `i` leaves in year `k`, at most 1 fine unit wide, by one of some
    /// causes, or by any where there are none: exactly 0 for a life that is not alive at the
    /// group's time. From the start of a contract it is ₖ|q_x = d_(x+k) / l_x.
    pub fn leave(&self, i: u8, k: u16, causes: Option<u8>) -> Ival
        requires life { i < N }
        requires from { self.now.start ≤ k }
        requires time { k ≤ LAST_TIME }
        ensures chance { EnclosesChance (leaving self.now (asked causes) k i)
            (started self.now i) 1 result }
        ensures along_tree { has_bit self.now.alive i ≡ true →
            let lives = lives_of self.now.file self.now.lives in
            EnclosesChance (leavers_of (asked causes) k lives i)
            (started_of self.now.start (has_bit self.now.alive) lives i) 1 result }
        ensures gone { has_bit self.now.alive i ≡ false → result ≡ nothing }
    {
        if !has_bit(self.alive(), i) {
            return Ival::exact(0);
        }
        // Those who leave in the year were alive at its start, and so at the group's time.
        let _alive = self.survivors(i, k);
        Ival::ratio(self.leavers(i, k, causes), self.survivors(i, self.start()))
    }
}
