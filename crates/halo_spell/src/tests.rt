// The canonical text of a contract with every form, and of single pays.
use crate::{spell_contract, spell_pay};
use halo_parse::read_contract;
use halo_table::Tables;
use std::rt::HostRuntime;
use std::test::Fail;

const TABLES: &[u8] = b"table,age,l,death,lapse\nm,60,8,2,2\nm,61,4,1,1\nm,62,2,1,1\n";

// A contract with every form of a line, not in its canonical form.
const WRITTEN: &[u8] = b"# every form\r\ninterest 01/20  2 1/025\r\n\
    life x m 060\r\n\tlife y m 61\r\nties even\r\n\
    pay 0100 0|A{lapse,death}[(x)^01:((y))]\r\npay 20 03|D02ad[((x)|(y:<05>))]\r\n\
    pay 3 a[bar((x:y):(y|x))]\r\n\npremium (x:<03>)\r\nreserve 01 y x\r\nreserve 1";

const CANONICAL: &[u8] = b"interest 1/20 2 1/25\n\
    life x m 60\nlife y m 61\nties even\n\
    pay 100 A{death,lapse}[x^1:y]\npay 20 3|D2ad[x|y:<5>]\n\
    pay 3 a[bar((x:y):(y|x))]\npremium x:<3>\nreserve 1 x y\nreserve 1\n";

// The symbols of its pays, a space behind each.
const SYMBOLS: &[u8] = b"A{death,lapse}[x^1:y] 3|D2ad[x|y:<5>] a[bar((x:y):(y|x))] ";

#[test]
fn spelled(rt: HostRuntime) -> Result<(), Fail> {
    let alloc = rt.alloc();
    let tables = Tables::read(alloc, TABLES)?;
    let contract = read_contract(alloc, WRITTEN, &tables)?;
    let text = spell_contract(alloc, &contract, &tables)?;
    assert!(rt; text.as_slice() == CANONICAL);

    let mut symbols = Vec::new(alloc);
    for pay in &contract.pays {
        spell_pay(pay, &contract.lives, &tables, &mut symbols)?;
        symbols.push(b' ')?;
    }
    assert!(rt; symbols.as_slice() == SYMBOLS);
    Ok(())
}
