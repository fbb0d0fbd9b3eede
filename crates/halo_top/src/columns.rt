// The command `columns`.
ghost use Rattle.std.specs.Prelude.{◌≡◌, ◌<◌, IfOk, length};
ghost use Rattle.halo_top.specs.Arguments.{AnswersArguments, ReadsInterest, TellsColumns};

use crate::refusal::{ArgumentKind, Stop};
use halo_check::ContractKind;
use halo_columns::columns as enclosed_columns;
use halo_interest::Interest;
use halo_num::Steps;
use halo_parse::read_fraction;
use halo_report::{Memory, columns_text};
use halo_table::Tables;
use std::alloc::Global;
use std::marker::Brand;
use std::sync::ledger::{Blank, Ledger};

/// The text of the columns of the table of this name, at the interest of this fraction.
pub fn columns(alloc: Global, tables: &Tables, name: &str, fraction: &str) -> Result<Vec<u8>, Stop>
    ensures { AnswersArguments tables.now name.now fraction.now result }
{
    let interest = read_interest(fraction)?;
    let table = tables.find(name.as_bytes()).ok_or(ArgumentKind::NoTable)?;
    let blank = Blank::new(1);
    Ok(text_of_table::<Brand>(alloc, tables, table, &interest, blank)?)
}

// The interest that a fraction writes, the same in every year.
fn read_interest(fraction: &str) -> Result<Interest, ArgumentKind>
    ensures { ReadsInterest fraction.now result }
{
    match read_fraction(fraction.as_bytes()) {
        Ok(interest) => Ok(interest),
        Err(ContractKind::Syntax) => Err(ArgumentKind::Syntax),
        Err(ContractKind::Magnitude) => Err(ArgumentKind::Magnitude),
        Err(_) => Err(ArgumentKind::Zero),
    }
}

// The text of the columns of a table, counted in a ledger of its own.
fn text_of_table<L: Ledger>(
    alloc: Global,
    tables: &Tables,
    table: u8,
    interest: &Interest,
    blank: Blank,
) -> Result<Vec<u8>, Memory>
    requires name { blank.name ≡ L.name }
    requires parts { blank.parts ≡ L.parts }
    requires some { 0 < L.parts }
    requires table { table < length tables.now.tables }
    ensures { IfOk result (λ text. TellsColumns tables.now table interest.now text.items) }
{
    let mut steps = Steps::<L>::new(blank);
    let columns = enclosed_columns(alloc, tables, table, interest, &mut steps)?;
    columns_text(alloc, tables, table, &columns)
}
