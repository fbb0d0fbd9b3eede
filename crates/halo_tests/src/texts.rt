// Texts of small data: a report, compiled forms, and parts of pays.
ghost use Rattle.std.specs.Prelude.{◌≡◌, ◌<◌, All, IfOk, length};
ghost use Rattle.halo_contract.specs.PlainContract.{contract_of};
ghost use Rattle.halo_lines.specs.Printable.{IsPrintable};
ghost use Rattle.halo_lines.specs.Parts.{IsPrintablePart, parts_of};
ghost use Rattle.halo_report.specs.FormText.{form_count};

use halo_compile::{Form, compile};
use halo_contract::Contract;
use halo_num::Nano;
use halo_parse::read_contract;
use halo_report::{Memory, Part, ValueReport, explain_text, form_text, value_text};
use halo_spell::laws::contracts_are_spellable;
use halo_status::Pay;
use halo_table::Tables;
use std::alloc::Global;
use std::rt::HostRuntime;
use std::test::Fail;

// At ages 0, 1 and 2 four, two and one are alive, of whom two, one and one die.
const TABLES: &[u8] = b"table,age,l,death\nc,0,4,2\nc,1,2,1\nc,2,1,1\n";

// An insurance worth 11/32, with a premium over two years, and its reserve after one.
const REPORT: &[u8] = b"\
pay 1 0.343750000 0.343750000\n\
total 0.343750000 0.343750000\n\
premium 0.275000000 0.275000000\n\
reserve 1 0.100000000 0.100000000\n";

// Each of three lives is in a table of three years.
const THREE_YEARS: &[u8] = b"table,age,l,death\nm,60,3,1\nm,61,2,1\nm,62,1,1\n";

const CONTRACT: &[u8] = b"\
interest 1/20\n\
life x m 60\n\
life y m 60\n\
life z m 60\n\
pay 1 ad[2/(x:y:z)]\n\
pay 1 ad[x:<2>]\n\
pay 1 a[x:<2>]\n\
pay 1 A[x^2:y]\n\
pay 1 ad[<2>]\n\
premium y:<1>\n";

const FORMS: &[u8] = b"\
pay 1 ad[2/(x:y:z)]\n\
0..2 +1 x:y +1 x:z +1 y:z -2 x:y:z\n\
pay 2 ad[x:<2>]\n\
0..1 +1 x\n\
2..2 0\n\
pay 3 a[x:<2>]\n\
1..2 +1 x\n\
3..3 0\n\
pay 4 A[x^2:y]\n\
0..2 +1 x -1 x:y\n\
pay 5 ad[<2>]\n\
0..1 +1 1\n\
2..2 0\n\
premium y:<1>\n\
0..0 +1 y\n\
1..2 0\n";

// Two lives of the table with three ages.
const TWO_LIVES: &[u8] = b"\
interest 1/1\n\
life x c 0\n\
life y c 0\n\
pay 1 ad[bar(x:y)]\n\
pay 1 A[x:<2>]\n";

// What each life adds, and what both take off; what falls on the leaving of x, and on the term.
const PARTS: &[u8] = b"\
pay 1 ad[bar(x:y)]\n\
term 0..2 +1 x 1.312500000 1.312500000\n\
term 0..2 +1 y 1.312500000 1.312500000\n\
term 0..2 -1 x:y -1.140625000 -1.140625000\n\
pay 2 A[x:<2>]\n\
life x 0.312500000 0.312500000\n\
term 2 0.062500000 0.062500000\n";

// An enclosure whose ends are equal, and a list of one enclosure.
fn exactly(units: i64) -> Nano
    ensures { IsPrintable result }
{
    Nano {
        lo: i128::from(units),
        hi: i128::from(units),
    }
}

fn one(alloc: Global, ends: Nano) -> Result<Vec<Nano>, Memory>
    requires { IsPrintable ends }
    ensures { IfOk result (λ list. All IsPrintable list.items) }
{
    let mut list = Vec::new(alloc);
    list.push(ends)?;
    Ok(list)
}

#[test]
fn report_of_values(rt: HostRuntime) -> Result<(), Fail> {
    let alloc = rt.alloc();
    let report = ValueReport {
        pays: one(alloc, exactly(343_750_000))?,
        total: exactly(343_750_000),
        premium: Some(exactly(275_000_000)),
        reserves: one(alloc, exactly(100_000_000))?,
    };
    let text = value_text(alloc, &report)?;
    assert!(rt; text.as_slice() == REPORT);
    Ok(())
}

// The form of a pay on three lives over three years.
fn three_years(alloc: Global, pay: &Pay) -> Result<Form<8>, Memory> {
    compile(alloc, pay, 3)
}

// Those of the pays of a contract, and of its premium, where it has one.
fn compile_all(alloc: Global, contract: &Contract) -> Result<Vec<Form<8>>, Memory>
    ensures { IfOk result (λ forms. length forms.items ≡ form_count (contract_of contract.now)) }
{
    let mut forms = Vec::new(alloc);
    for pay in &contract.pays {
        forms.push(three_years(alloc, pay)?)?;
    }
    if let Some(pay) = &contract.premium {
        forms.push(three_years(alloc, pay)?)?;
    }
    Ok(forms)
}

#[test]
fn text_of_forms(rt: HostRuntime) -> Result<(), Fail> {
    let alloc = rt.alloc();
    let tables = Tables::read(alloc, THREE_YEARS)?;
    let contract = read_contract(alloc, CONTRACT, &tables)?;
    assert!(rt; contract.lives.len() == 3);
    contracts_are_spellable();
    let forms = compile_all(alloc, &contract)?;
    let text = form_text(alloc, &contract, &tables, &forms)?;
    assert!(rt; text.as_slice() == FORMS);
    Ok(())
}

// What a coefficient adds at the times 0 to 2.
fn term(coefficient: i64, set: u16, worth: Nano) -> Part
    requires set { set < 4 }
    requires worth { IsPrintable worth }
    ensures { IsPrintablePart 2 result }
{
    Part::Term {
        from: 0,
        to: 2,
        coefficient,
        set,
        worth,
    }
}

// The parts of an annuity on the last survivor of two lives.
fn parts_of_annuity(alloc: Global) -> Result<Vec<Part>, Memory>
    ensures { IfOk result (λ parts. All (IsPrintablePart 2) parts.items) }
{
    let mut parts = Vec::new(alloc);
    parts.push(term(1, 0b01, exactly(1_312_500_000)))?;
    parts.push(term(1, 0b10, exactly(1_312_500_000)))?;
    parts.push(term(-1, 0b11, exactly(-1_140_625_000)))?;
    Ok(parts)
}

// The parts of an insurance on a life and a term.
fn parts_of_insurance(alloc: Global) -> Result<Vec<Part>, Memory>
    ensures { IfOk result (λ parts. All (IsPrintablePart 2) parts.items) }
{
    let mut parts = Vec::new(alloc);
    parts.push(Part::OnLife {
        life: 0,
        worth: exactly(312_500_000),
    })?;
    parts.push(Part::OnTerm {
        years: 2,
        worth: exactly(62_500_000),
    })?;
    Ok(parts)
}

// Those of both.
fn parts_of_both(alloc: Global) -> Result<Vec<Vec<Part>>, Memory>
    ensures two { IfOk result (λ parts. length parts.items ≡ 2) }
    ensures parts { IfOk result (λ parts. All (All (IsPrintablePart 2)) (parts_of parts.items)) }
{
    let mut parts = Vec::new(alloc);
    parts.push(parts_of_annuity(alloc)?)?;
    parts.push(parts_of_insurance(alloc)?)?;
    Ok(parts)
}

#[test]
fn text_of_parts(rt: HostRuntime) -> Result<(), Fail> {
    let alloc = rt.alloc();
    let tables = Tables::read(alloc, TABLES)?;
    let contract = read_contract(alloc, TWO_LIVES, &tables)?;
    assert!(rt; contract.lives.len() == 2 && contract.pays.len() == 2);
    contracts_are_spellable();
    let parts = parts_of_both(alloc)?;
    let text = explain_text(alloc, &contract, &tables, &parts)?;
    assert!(rt; text.as_slice() == PARTS);
    Ok(())
}
