// The sample of 1 begins and ends as it does where the same rules were run by hand elsewhere. Its
// last lines hang on all states before them.
use crate::sample;
use std::rt::HostRuntime;
use std::test::Fail;

const FIRST_ROWS: &[u8] = b"\
table,age,l,death,lapse\n\
t0,0,1000000000,1500000,300000\n\
t0,1,998200000,1996400,0\n\
t0,2,996203600,2092027,498101\n";

const LAST_ROWS: &[u8] = b"\
t3,109,126820152,4375295,114138\n\
t3,110,122330719,122330719,0\n";

const FIRST_LINES: &[u8] = b"\
interest 2/100\n\
life p1 t0 21\n\
life p2 t1 40\n\
life p3 t1 39\n\
life p4 t0 63\n\
life p5 t1 62\n\
life p6 t1 69\n\
life p7 t1 28\n\
life p8 t2 32\n\
pay 94197 D20A[p7:p8:<20>]\n\
pay 39759 A[4/(p1:p2:p3:p4:p5:p6:p7:p8)]\n\
pay 36740 ad[[3]/(p1:p2:p3:p4:p5:p6:p7:p8)]\n";

const LAST_LINES: &[u8] = b"\
pay 82007 a[p1:p2|p3:p4]\n\
pay 70041 ad[bar(p1:p2:p3)]\n\
pay 58113 ad[[3]/(p1:p2:p3:p4:p5:p6:p7:p8)]\n\
pay 44850 10|Ia[2/(p1:p4:p7)]\n\
premium bar(p1:p2):<30>\n\
reserve 5 p1 p2 p3 p4 p5 p6 p7 p8\n\
reserve 10 p2 p3 p4\n";

#[test]
fn sample_of_one(rt: HostRuntime) -> Result<(), Fail> {
    let files = sample(rt.alloc(), 1)?;
    assert_eq!(rt; (files.tables.len(), files.contract.len()), (13_868, 2_164));
    assert!(rt; files.tables.starts_with(FIRST_ROWS));
    assert!(rt; files.tables.ends_with(LAST_ROWS));
    assert!(rt; files.contract.starts_with(FIRST_LINES));
    assert!(rt; files.contract.ends_with(LAST_LINES));
    Ok(())
}
