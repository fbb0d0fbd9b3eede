// The horizon of a status.
ghost use Rattle.std.specs.Prelude.{◌≡◌, ◌≤◌};
ghost use Rattle.halo_status.specs.StatusTree.{tree_of, trees_in};
ghost use Rattle.halo_table.specs.DecrementTable.{HasRow};
ghost use Rattle.halo_model.specs.FromTables.{life_of, lives_of};
ghost use Rattle.halo_model.specs.Horizon.{HasRows, HasShortTerms, HaveRows, HaveShortTerms, horizon, longest, longest_of, years_left_of};

use halo_interest::LAST_TIME;
use halo_status::{Members, Status};
use halo_table::{Life, Tables};

/// The horizon of a status: the greatest of 1, the years that the lives it names have left in
/// their tables, and its terms, in years from the start of the contract, at most 200. Each life
/// that it names has a place in `lives` and a row at its age, and its terms are of at most 200
/// years.
pub fn horizon(body: &Status, tables: &Tables, lives: &[Life]) -> u16
    requires rows { HasRows tables.now lives.now (tree_of body.now) }
    requires terms { HasShortTerms (tree_of body.now) }
    ensures years { result ≡ horizon (lives_of tables.now lives.now) (tree_of body.now) }
    ensures some { 1 ≤ result }
    ensures few { result ≤ LAST_TIME }
{
    longest(body, tables, lives).max(1)
}

// The years that a life has left: as many as there are rows from its age on.
fn years_left(tables: &Tables, life: Life) -> u16
    requires { HasRow tables.now life.table life.age }
    ensures years { result ≡ (life_of tables.now life.table life.age).years_left }
    ensures few { result ≤ 151 }
{
    tables.last_age(life.table) + 1 - life.age
}

// The longest of the years that the lives of a status have left and of its terms.
#[cycle(longest)]
#[tactic(auto, using(halo_status::proofs::Shapes::shapes))]
fn longest(body: &Status, tables: &Tables, lives: &[Life]) -> u16
    requires rows { HasRows tables.now lives.now (tree_of body.now) }
    requires terms { HasShortTerms (tree_of body.now) }
    ensures years { result
        ≡ longest (years_left_of (lives_of tables.now lives.now)) (tree_of body.now) }
    ensures few { result ≤ LAST_TIME }
{
    match body {
        Status::Life(i) => years_left(tables, lives[usize::from(*i)]),
        Status::Term(years) => *years,
        Status::Joint(members)
        | Status::Last(members)
        | Status::AtLeast(_, members)
        | Status::Exactly(_, members) => longest_of(members, tables, lives),
        Status::After(first, then) => {
            longest(first, tables, lives).max(longest(then, tables, lives))
        }
    }
}

// The same of the members of a status.
#[cycle(longest)]
fn longest_of(members: &Members, tables: &Tables, lives: &[Life]) -> u16
    requires rows { HaveRows tables.now lives.now (trees_in members.now) }
    requires terms { HaveShortTerms (trees_in members.now) }
    ensures years { result
        ≡ longest_of (years_left_of (lives_of tables.now lives.now)) (trees_in members.now) }
    ensures few { result ≤ LAST_TIME }
{
    let mut years = 0;
    for i in 0..members.len() {
        years = longest(members.at(i), tables, lives).max(years);
    }
    years
}
