// All sets within a set, one after the other.
ghost use Rattle.std.specs.Prelude.{◌≡◌, ◌≢◌, ℕ, ◌<◌, ◌≤◌, true};
ghost use Rattle.halo_sums.specs.Within.{is_within};

/// The set within `whole` that comes next after `set`, one of them, in the order of their masks:
/// from the empty set on it goes through all of them.
pub fn next_within(set: u16, whole: u16) -> u16
    requires within { is_within set whole ≡ true }
    requires more { set ≢ whole }
    ensures later { set < result }
    ensures within { is_within result whole ≡ true }
    ensures next { (mask : ℕ) → is_within mask whole ≡ true → set < mask → result ≤ mask }
{
    // What the sets leave out of the whole falls from one to the next.
    let left_out = whole - set;
    whole - ((left_out - 1) & whole)
}
