// Commutation columns of short tables, worked by hand.
ghost use Rattle.std.specs.Prelude.{◌≡◌, ◌<◌};

use crate::columns;
use halo_interest::Interest;
use halo_num::{Ival, Steps};
use halo_table::Tables;
use std::alloc::Global;
use std::marker::Brand;
use std::process::Abort;
use std::rt::HostRuntime;
use std::sync::ledger::{Blank, Ledger};
use std::test::Fail;

// At ages 0, 1 and 2 four, two and one are alive, of whom two, one and one die.
const ONE_CAUSE: &[u8] = b"table,age,l,death\nc,0,4,2\nc,1,2,1\nc,2,1,1\n";

// Of four alive at 60 one dies and one lapses, and of two alive at 61 likewise.
const TWO_CAUSES: &[u8] = b"table,age,l,death,lapse\nw,60,4,1,1\nw,61,2,1,1\n";

const THOUSANDTH: i128 = 1_000_000_000_000_000;

fn assert_thousandths(rt: &impl Abort, column: &str, entry: Ival, thousandths: i128) {
    assert!(rt; 0 <= thousandths && thousandths <= 1_000_000);
    let units = thousandths * THOUSANDTH;
    assert_eq!(rt; (entry.lo(), entry.hi()), (units, units), "{column}");
}

// The columns at the interest 1/1, where each is a short decimal.
fn assert_columns<L: Ledger>(rt: &impl Abort, alloc: Global, blank: Blank) -> Result<(), Fail>
    requires name { blank.name ≡ L.name }
    requires parts { blank.parts ≡ L.parts }
    requires some { 0 < L.parts }
{
    let mut steps = Steps::<L>::new(blank);
    let tables = Tables::read(alloc, ONE_CAUSE)?;
    let table = tables.find(b"c").ok_or("the table stands in the file")?;
    let interest = Interest::new(1, 1).ok_or("1/1 is a fraction")?;
    let set = columns(alloc, &tables, table, &interest, &mut steps)?;
    let last = tables.last_age(table);
    // An age, and its D, N, S, C, M and R in thousandths.
    let rows: [(u16, [i128; 6]); 3] = [
        (0, [4000, 5250, 6750, 1000, 1375, 1875]),
        (1, [1000, 1250, 1500, 250, 375, 500]),
        (2, [250, 250, 250, 125, 125, 125]),
    ];
    for (age, row) in rows {
        assert!(rt; age <= last);
        let [d, n, s, c, m, r] = row;
        assert_thousandths(rt, "D", set.d(age), d);
        assert_thousandths(rt, "N", set.n(age), n);
        assert_thousandths(rt, "S", set.s(age), s);
        assert_thousandths(rt, "C", set.c(age), c);
        assert_thousandths(rt, "M", set.m(age), m);
        assert_thousandths(rt, "R", set.r(age), r);
        assert_thousandths(rt, "C by cause", set.c_by(age, 0), c);
        assert_thousandths(rt, "M by cause", set.m_by(age, 0), m);
    }
    Ok(())
}

#[test]
fn one_cause(rt: HostRuntime) -> Result<(), Fail> {
    assert_columns::<Brand>(&rt, rt.alloc(), Blank::new(1))
}

// The columns by cause without interest: counts of lives.
fn assert_by_cause<L: Ledger>(rt: &impl Abort, alloc: Global, blank: Blank) -> Result<(), Fail>
    requires name { blank.name ≡ L.name }
    requires parts { blank.parts ≡ L.parts }
    requires some { 0 < L.parts }
{
    let mut steps = Steps::<L>::new(blank);
    let tables = Tables::read(alloc, TWO_CAUSES)?;
    let table = tables.find(b"w").ok_or("the table stands in the file")?;
    let interest = Interest::new(0, 1).ok_or("0/1 is a fraction")?;
    let set = columns(alloc, &tables, table, &interest, &mut steps)?;
    let first = tables.first_age(table);
    assert!(rt; first <= tables.last_age(table) && tables.causes() == 2);
    assert_thousandths(rt, "C by lapse", set.c_by(first, 1), 1000);
    assert_thousandths(rt, "M by lapse", set.m_by(first, 1), 2000);
    assert_thousandths(rt, "C", set.c(first), 2000);
    assert_thousandths(rt, "M", set.m(first), 4000);
    Ok(())
}

#[test]
fn two_causes(rt: HostRuntime) -> Result<(), Fail> {
    assert_by_cause::<Brand>(&rt, rt.alloc(), Blank::new(1))
}
