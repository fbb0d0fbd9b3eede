// Statuses that exist and that do not, and how often a life stands in them.
ghost use Rattle.std.specs.Prelude.{◌≡◌, [], ◌∷◌, IfOk};
ghost use Rattle.halo_status.specs.StatusTree.{tree_of};
ghost use Rattle.halo_status.specs.Tree.{life, term, joint, after, more, none};

use crate::{MOST_ITEMS, Members, Memory, Status, View};
use std::alloc::Global;
use std::test::Fail;

fn pair(alloc: Global, first: Status, second: Status) -> Result<Members, Memory>
    ensures { IfOk result (λ members. members ≡ first ∷ second ∷ []) }
{
    let mut members = Members::new(alloc, first)?;
    members.push(second)?;
    Ok(members)
}

// At least two of the lives 0, 1 and 2.
fn two_of_three(alloc: Global) -> Result<Status, Memory> {
    let mut lives = pair(alloc, Status::Life(0), Status::Life(1))?;
    lives.push(Status::Life(2))?;
    Ok(Status::AtLeast(2, lives))
}

// The last survivor of two: two years of life 1, and exactly one of the lives 0 and 3.
fn one_or_two_years(alloc: Global) -> Result<Status, Memory> {
    let years = pair(alloc, Status::Term(2), Status::Life(1))?;
    let one = pair(alloc, Status::Life(0), Status::Life(3))?;
    let last = pair(alloc, Status::Joint(years), Status::Exactly(1, one))?;
    Ok(Status::Last(last))
}

// The second of these after the first.
fn nested(alloc: Global) -> Result<Status, Memory> {
    let first = Box::new(alloc, two_of_three(alloc)?).map_err(|_| Memory)?;
    let then = Box::new(alloc, one_or_two_years(alloc)?).map_err(|_| Memory)?;
    Ok(Status::After(first, then))
}

// Two years of life 15 after life 1.
#[tactic(auto, using(crate::proofs::Shapes::shapes))]
fn years_after(alloc: Global) -> Result<Status, Memory>
    ensures { IfOk result
        (λ s. tree_of s ≡ after (life 1) (joint (more (term 2) (more (life 15) none)))) }
{
    let first = Box::new(alloc, Status::Life(1)).map_err(|_| Memory)?;
    let years = pair(alloc, Status::Term(2), Status::Life(15))?;
    let then = Box::new(alloc, Status::Joint(years)).map_err(|_| Memory)?;
    Ok(Status::After(first, then))
}

#[test]
fn sixteen_members(rt: HostRuntime) -> Result<(), Fail> {
    let mut members = Members::new(rt.alloc(), Status::Life(0))?;
    for i in 1..16 {
        assert!(rt; members.len() == i as usize);
        members.push(Status::Life(i))?;
    }
    assert_eq!(rt; members.len(), MOST_ITEMS);
    for i in 0..members.len() {
        assert!(rt;
            matches!(members.at(i), Status::Life(life) if *life as usize == i),
            "at {i}"
        );
    }
    Ok(())
}

#[test]
fn exists_where_its_members_do(rt: HostRuntime) -> Result<(), Fail> {
    let status = nested(rt.alloc())?;
    // The lives that are there, the view, the time, and whether the status exists.
    let rows = [
        (0b1111, View::Due, 0, false),
        (0b0101, View::Due, 9, false),
        (0b0010, View::Due, 1, true),
        (0b0010, View::Due, 2, false),
        (0b0010, View::Immediate, 2, true),
        (0b0010, View::Immediate, 3, false),
        (0b1000, View::Due, 9, true),
        (0b0001, View::Immediate, 9, true),
        (0b1001, View::Due, 9, false),
        (0b0000, View::Due, 0, false),
    ];
    for (alive, view, t, want) in rows {
        assert_eq!(rt; status.exists(alive, view, t), want, "{alive} {view:?} {t}");
    }
    Ok(())
}

#[test]
fn counts_a_life_in_each_place(rt: HostRuntime) -> Result<(), Fail> {
    let alloc = rt.alloc();
    // The number asked of the members, life 0 twice, and whether exactly so many exist.
    for (rank, want) in [(1, false), (2, true)] {
        let twice = pair(alloc, Status::Life(0), Status::Life(0))?;
        let status = Status::Exactly(rank, twice);
        assert_eq!(rt; status.exists(1, View::Due, 0), want, "exactly {rank}");
    }
    Ok(())
}

#[test]
fn tells_of_its_tree(rt: HostRuntime) -> Result<(), Fail> {
    let alloc = rt.alloc();
    let status = years_after(alloc)?;
    assert_eq!(rt; status.lives(), 0x8002);
    assert_eq!(rt; status.nodes(), 5);
    // A status, whether it has a term of two years, and whether it lasts.
    let rows = [
        (status, true, false),
        (two_of_three(alloc)?, false, true),
        (one_or_two_years(alloc)?, true, false),
    ];
    for (status, has_term, lasting) in rows {
        assert_eq!(rt; status.has_term(2), has_term);
        assert!(rt; !status.has_term(1));
        assert_eq!(rt; status.lasting(), lasting);
    }
    Ok(())
}
