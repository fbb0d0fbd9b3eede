// Statuses: lives, terms, and what is made of them.
ghost use Rattle.std.specs.Prelude.{◌≡◌, ℕ, ◌^◌, ◌<◌, ◌↔◌, IsTrue, min};
ghost use Rattle.halo_status.specs.Exists.{exists, each_exists};
ghost use Rattle.halo_sums.specs.Sums.{count_true};
ghost use Rattle.halo_sums.specs.Masks.{has_bit};
ghost use Rattle.halo_status.specs.Naming.{names_life, any_names_life, names_term, any_names_term, NamesLivesBelow, AnyNamesLivesBelow};
ghost use Rattle.halo_status.specs.Nodes.{nodes, nodes_in, AtEachNodeIn, IsLasting, NeverReturns, HasShortList, HasShortLists};
ghost use Rattle.halo_status.specs.ReadOnce.{standings, standings_in, IsReadOnce};
ghost use Rattle.halo_status.specs.StatusTree.{tree_of, trees_in};
ghost use Rattle.halo_status.specs.View.{is_on};

use crate::{ShortList, View};
use halo_sums::has_bit;

/// The members of a status, seen as the list of them: 1 to 16 statuses.
pub type Members = ShortList<Status>;

// How many numbers a life can have: those of a byte.
const LIFE_NUMBERS: u16 = 256;

/// A status: what exists while certain lives are there and certain terms are on.
///
/// A clause sees it as its tree. The members of a list are told apart by their places, so a life
/// that is named twice is one life that counts in both places.
#[derive(Debug, Drop)]
pub enum Status {
    /// Exists while the life of this number is there.
    Life(u8),
    /// Exists for so many years.
    Term(u16),
    /// Exists while all of its members exist: a joint-life status.
    Joint(Members),
    /// Exists while at least one of its members exists: a last-survivor status.
    Last(Members),
    /// Exists while at least so many of its members exist: a k-survivor status.
    AtLeast(u8, Members),
    /// Exists while exactly so many of its members exist: a deferred k-survivor status.
    Exactly(u8, Members),
    /// Exists while the second exists and the first does not: the status of a reversion.
    After(Box<Status>, Box<Status>),
}

impl Status {
    /// Whether it exists at time `t` of the view where the lives of the set `alive` are there, life
    /// i as bit i. A life of number 16 or more is never there.
    #[cycle(existing)]
    #[tactic(auto, using(crate::proofs::Shapes::shapes))]
    pub fn exists(&self, alive: u16, view: View, t: u16) -> bool
        ensures { result ≡ exists (has_bit alive) (is_on view t) (tree_of self.now) }
    {
        match self {
            Status::Life(i) => has_bit(alive, *i),
            Status::Term(n) => view.is_on(t, *n),
            Status::Joint(members) => {
                count_existing(members.as_slice(), alive, view, t) == members.len()
            }
            Status::Last(members) => count_existing(members.as_slice(), alive, view, t) > 0,
            Status::AtLeast(rank, members) => {
                count_existing(members.as_slice(), alive, view, t) >= *rank as usize
            }
            Status::Exactly(rank, members) => {
                count_existing(members.as_slice(), alive, view, t) == *rank as usize
            }
            Status::After(first, then) => {
                then.exists(alive, view, t) && !first.exists(alive, view, t)
            }
        }
    }

    /// The set of the lives that it names, life i as bit i. Their numbers have to be below 16.
    #[cycle(naming_lives)]
    #[tactic(auto, using(crate::proofs::Shapes::shapes))]
    pub fn lives(&self) -> u16
        requires { NamesLivesBelow 16 (tree_of self.now) }
        ensures { (i : ℕ) → has_bit result i ≡ names_life i (tree_of self.now) }
    {
        match self {
            Status::Life(i) => 1 << i,
            Status::Term(_) => 0,
            Status::Joint(members)
            | Status::Last(members)
            | Status::AtLeast(_, members)
            | Status::Exactly(_, members) => lives_of(members.as_slice()),
            Status::After(first, then) => first.lives() | then.lives(),
        }
    }

    /// Whether it names a term of `n` years.
    #[cycle(naming_terms)]
    #[tactic(auto, using(crate::proofs::Shapes::shapes))]
    pub fn has_term(&self, n: u16) -> bool
        ensures { result ≡ names_term n (tree_of self.now) }
    {
        match self {
            Status::Life(_) => false,
            Status::Term(years) => *years == n,
            Status::Joint(members)
            | Status::Last(members)
            | Status::AtLeast(_, members)
            | Status::Exactly(_, members) => any_has_term(members.as_slice(), n),
            Status::After(first, then) => first.has_term(n) || then.has_term(n),
        }
    }

    /// How many nodes its tree has, at most 2^32 - 1. It tells as well that each list in it has 1
    /// to 16 members.
    #[cycle(counting)]
    #[tactic(auto, using(crate::proofs::Shapes::shapes))]
    pub fn nodes(&self) -> u32
        requires { nodes (tree_of self.now) < 2 ^ 32 }
        ensures count { result ≡ nodes (tree_of self.now) }
        ensures lists { HasShortLists (tree_of self.now) }
    {
        match self {
            Status::Life(_) | Status::Term(_) => 1,
            Status::Joint(members)
            | Status::Last(members)
            | Status::AtLeast(_, members)
            | Status::Exactly(_, members) => 1 + nodes_of(members.as_slice()),
            Status::After(first, then) => 1 + first.nodes() + then.nodes(),
        }
    }

    /// Whether it is lasting: whether no `Exactly` and no `After` is in it.
    #[cycle(lasting)]
    #[tactic(auto, using(crate::proofs::Shapes::shapes))]
    pub fn lasting(&self) -> bool
        ensures { IsTrue result ↔ IsLasting (tree_of self.now) }
    {
        match self {
            Status::Life(_) | Status::Term(_) => true,
            Status::Joint(members) | Status::Last(members) | Status::AtLeast(_, members) => {
                are_lasting(members.as_slice())
            }
            Status::Exactly(..) | Status::After(..) => false,
        }
    }

    /// Whether it is read once: whether no life stands in it twice.
    pub fn read_once(&self) -> bool
        ensures { IsTrue result ↔ IsReadOnce (tree_of self.now) }
    {
        for i in 0..LIFE_NUMBERS {
            if self.standings(i as u8) > 1 {
                return false;
            }
        }
        true
    }

    // How often life i stands in it, counted up to 255. Lives have numbers up to 255.
    #[cycle(standing)]
    #[tactic(auto, using(crate::proofs::Shapes::shapes))]
    fn standings(&self, i: u8) -> u8
        ensures count { result ≡ min 255 (standings i (tree_of self.now)) }
        ensures numbers { (j : ℕ) → 255 < j → standings j (tree_of self.now) ≡ 0 }
    {
        match self {
            Status::Life(life) => u8::from(*life == i),
            Status::Term(_) => 0,
            Status::Joint(members)
            | Status::Last(members)
            | Status::AtLeast(_, members)
            | Status::Exactly(_, members) => standings_of(members.as_slice(), i),
            Status::After(first, then) => first.standings(i).saturating_add(then.standings(i)),
        }
    }
}

// How many of some members exist.
#[cycle(existing)]
fn count_existing(members: &[Status], alive: u16, view: View, t: u16) -> usize
    ensures { result
        ≡ count_true (each_exists (has_bit alive) (is_on view t) (trees_in members.now)) }
{
    let mut count = 0;
    for member in members {
        if member.exists(alive, view, t) {
            count += 1;
        }
    }
    count
}

// The set of the lives that some members name.
#[cycle(naming_lives)]
fn lives_of(members: &[Status]) -> u16
    requires { AnyNamesLivesBelow 16 (trees_in members.now) }
    ensures { (i : ℕ) → has_bit result i ≡ any_names_life i (trees_in members.now) }
{
    let mut lives = 0;
    for member in members {
        lives |= member.lives();
    }
    lives
}

// Whether some of the members names a term of `n` years.
#[cycle(naming_terms)]
fn any_has_term(members: &[Status], n: u16) -> bool
    ensures { result ≡ any_names_term n (trees_in members.now) }
{
    for member in members {
        if member.has_term(n) {
            return true;
        }
    }
    false
}

// How many nodes the trees of some members have.
#[cycle(counting)]
fn nodes_of(members: &[Status]) -> u32
    requires { nodes_in (trees_in members.now) < 2 ^ 32 }
    ensures count { result ≡ nodes_in (trees_in members.now) }
    ensures lists { AtEachNodeIn HasShortList (trees_in members.now) }
{
    let mut count = 0;
    for member in members {
        count += member.nodes();
    }
    count
}

// Whether all of some members are lasting.
#[cycle(lasting)]
fn are_lasting(members: &[Status]) -> bool
    ensures { IsTrue result ↔ AtEachNodeIn NeverReturns (trees_in members.now) }
{
    for member in members {
        if !member.lasting() {
            return false;
        }
    }
    true
}

// How often life i stands in some members, counted up to 255.
#[cycle(standing)]
fn standings_of(members: &[Status], i: u8) -> u8
    ensures count { result ≡ min 255 (standings_in i (trees_in members.now)) }
    ensures numbers { (j : ℕ) → 255 < j → standings_in j (trees_in members.now) ≡ 0 }
{
    let mut count = 0u8;
    for member in members {
        count = count.saturating_add(member.standings(i));
    }
    count
}
