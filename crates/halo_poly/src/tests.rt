// Worked values of each call, on two and on three lives.
ghost use Rattle.std.specs.Prelude.{◌≡◌, ℕ, [], ◌∷◌, length, pos, IfOk};
ghost use Rattle.halo_poly.specs.Symmetric.{AreOfStatuses};

use crate::{Memory, Poly, at_least, exactly, symmetric};
use std::alloc::Global;
use std::process::Abort;
use std::test::Fail;

// The polynomials of the lives 0, 1 and 2.
fn three_lives(alloc: Global) -> Result<Vec<Poly<8>>, Memory>
    ensures count { IfOk result (λ lives. length lives.items ≡ 3) }
    ensures statuses { IfOk result (λ lives. (n : ℕ) → AreOfStatuses n lives.items) }
{
    let mut lives = Vec::new(alloc);
    for life in 0..3_u8 {
        let mut poly = Poly::<8>::zero(alloc)?;
        poly.set_life(life);
        lives.push(poly)?;
    }
    Ok(lives)
}

// The symmetric sums of the three.
fn sums_of_three(alloc: Global) -> Result<Vec<Poly<8>>, Memory> {
    let lives = three_lives(alloc)?;
    symmetric(alloc, &lives)
}

// At least, or exactly, two of the three.
fn two_of_three(alloc: Global, is_exact: bool) -> Result<Poly<8>, Memory> {
    let lives = three_lives(alloc)?;
    if is_exact {
        exactly(alloc, 2, &lives)
    } else {
        at_least(alloc, 2, &lives)
    }
}

// The last survivor of the lives 0 and 1, of three.
fn last_of_two(alloc: Global) -> Result<Poly<8>, Memory> {
    Poly::of_sets(alloc, &[false, true, true, true, false, true, true, true])
}

// The same, told by the sets of these two lives alone.
fn last_of_two_within(alloc: Global) -> Result<Poly<8>, Memory> {
    let marked = [false, true, true, true, false, false, false, false];
    Poly::of_sets_within(alloc, &marked, 3)
}

// The polynomial that is 1 on every set of two lives, and that of one of the lives.
fn one(alloc: Global) -> Result<Poly<4>, Memory>
    ensures { IfOk result (λ poly. poly ≡ pos 1 ∷ pos 0 ∷ pos 0 ∷ pos 0 ∷ []) }
{
    let mut poly = Poly::<4>::zero(alloc)?;
    poly.set_one();
    Ok(poly)
}

fn first(alloc: Global) -> Result<Poly<4>, Memory>
    ensures { IfOk result (λ poly. poly ≡ pos 0 ∷ pos 1 ∷ pos 0 ∷ pos 0 ∷ []) }
{
    let mut poly = Poly::<4>::zero(alloc)?;
    poly.set_life(0);
    Ok(poly)
}

fn second(alloc: Global) -> Result<Poly<4>, Memory>
    ensures { IfOk result (λ poly. poly ≡ pos 0 ∷ pos 0 ∷ pos 1 ∷ pos 0 ∷ []) }
{
    let mut poly = Poly::<4>::zero(alloc)?;
    poly.set_life(1);
    Ok(poly)
}

fn sum(alloc: Global) -> Result<Poly<4>, Memory> {
    let mut poly = first(alloc)?;
    poly.add(&second(alloc)?);
    Ok(poly)
}

fn difference(alloc: Global) -> Result<Poly<4>, Memory> {
    let mut poly = one(alloc)?;
    poly.sub(&first(alloc)?);
    Ok(poly)
}

fn product(alloc: Global) -> Result<Poly<4>, Memory> {
    let mut poly = one(alloc)?;
    first(alloc)?.times(&second(alloc)?, &mut poly);
    Ok(poly)
}

fn check_three(rt: &impl Abort, poly: &Poly<8>, row: [i64; 8], name: &str) -> Result<(), Fail> {
    for set in 0..8_u16 {
        assert_eq!(rt; poly.coefficient(set), row[set as usize], "{name} at {set}");
    }
    Ok(())
}

fn check_two(rt: &impl Abort, poly: &Poly<4>, row: [i64; 4], name: &str) -> Result<(), Fail> {
    for set in 0..4_u16 {
        assert_eq!(rt; poly.coefficient(set), row[set as usize], "{name} at {set}");
    }
    Ok(())
}

#[test]
fn single_steps_with_two_lives(rt: HostRuntime) -> Result<(), Fail> {
    let alloc = rt.alloc();
    check_two(&rt, &sum(alloc)?, [0, 1, 1, 0], "x + y")?;
    check_two(&rt, &difference(alloc)?, [1, -1, 0, 0], "1 - x")?;
    check_two(&rt, &product(alloc)?, [0, 0, 0, 1], "x y")
}

#[test]
fn sums_of_three_lives(rt: HostRuntime) -> Result<(), Fail> {
    let sums = sums_of_three(rt.alloc())?;
    // For each number of lives, the coefficients of the sets by their masks.
    let rows = [
        [1, 0, 0, 0, 0, 0, 0, 0],
        [0, 1, 1, 0, 1, 0, 0, 0],
        [0, 0, 0, 1, 0, 1, 1, 0],
        [0, 0, 0, 0, 0, 0, 0, 1],
    ];
    assert_eq!(rt; sums.len(), rows.len());
    for (sum, row) in sums.iter().zip(&rows) {
        check_three(&rt, sum, *row, "symmetric")?;
    }
    Ok(())
}

#[test]
fn two_of_three_lives(rt: HostRuntime) -> Result<(), Fail> {
    let alloc = rt.alloc();
    let two = two_of_three(alloc, false)?;
    check_three(&rt, &two, [0, 0, 0, 1, 0, 1, 1, -2], "2/(x:y:z)")?;
    let exact = two_of_three(alloc, true)?;
    check_three(&rt, &exact, [0, 0, 0, 1, 0, 1, 1, -3], "[2]/(x:y:z)")?;
    assert_eq!(rt; two.weight(), 5);
    assert_eq!(rt; two.value_on(2), 0, "one life");
    assert_eq!(rt; two.value_on(6), 1, "two lives");
    assert_eq!(rt; two.value_on(7), 1, "three lives");
    let mut part = last_of_two(alloc)?;
    check_three(&rt, &part, [0, 1, 1, -1, 0, 0, 0, 0], "bar(x:y)")?;
    two.drop_life(2, &mut part);
    check_three(&rt, &part, [0, 1, 1, -2, 0, 0, 0, 0], "part with z")
}

#[test]
fn last_of_two_of_three_lives(rt: HostRuntime) -> Result<(), Fail> {
    let poly = last_of_two_within(rt.alloc())?;
    check_three(&rt, &poly, [0, 1, 1, -1, 0, 0, 0, 0], "bar(x:y)")?;
    assert_eq!(rt; poly.value_on(4), 0, "z");
    assert_eq!(rt; poly.value_on(6), 1, "y and z");
    Ok(())
}
