// From the values of the pays of a contract to the lines of its report.
ghost use Rattle.std.specs.Prelude.{◌≡◌, ℕ, ◌<◌, All, IfOk, IfSome, List, Option, length, map, pos};
ghost use Rattle.std.specs.List.{AllZip};
ghost use Rattle.std.specs.Option.{option_map};
ghost use Rattle.halo_num.specs.Ends.{IsWithin};
ghost use Rattle.halo_sums.specs.Masks.{has_bit};
ghost use Rattle.halo_status.specs.Pay.{PlainPay, pay_of};
ghost use Rattle.halo_status.specs.Tree.{Tree};
ghost use Rattle.halo_contract.specs.Premium.{all_lives};
ghost use Rattle.halo_model.specs.Basis.{Basis};
ghost use Rattle.halo_model.specs.Enclosed.{EnclosesBenefits};
ghost use Rattle.halo_model.specs.Line.{IsReserveLine};
ghost use Rattle.halo_lines.specs.Printable.{IsPrintable, IsPrintableReport};
ghost use Rattle.halo_lines.specs.Report.{AreReserveLines, report_of};
ghost use Rattle.halo_value.specs.ContractValues.{AreContractValues, CanBeAddedAt, CanBeTakenOffAt};
ghost use Rattle.halo_value.specs.ContractValues.{CanDivide, CanMultiplyAt};
ghost use Rattle.halo_value.specs.ContractValues.{EnclosesReport, HasPremium};
ghost use Rattle.halo_value.specs.PayValues.{ArePremiumValues, AreValuesOf};
ghost use Rattle.halo_value.specs.Reading.{reserve_at};

use crate::Memory;
use crate::column::{at_reserve, starts};
use crate::pass::PayValues;
use halo_contract::ReserveLine;
use halo_lines::{PremiumLine, ValueReport, benefits, pay_lines, premium_line, reserve_line};
use halo_num::{GREATEST_FACTOR, Ival, Nano, Steps};
use halo_status::Pay;
use std::alloc::Global;
use std::sync::ledger::Ledger;

/// A premium that is asked for, and what a premium of 1 is worth at each reserve.
#[derive(Drop)]
pub struct Premium {
    /// The premium and its line.
    pub line: PremiumLine,
    /// What a premium of 1 is worth at each reserve.
    pub due: Vec<Ival>,
}

/// The report of a contract from the values of its pays, and of what a premium of 1 pays if a
/// premium is asked for.
pub fn report_lines<L: Ledger>(
    alloc: Global,
    pays: &[Pay],
    reserves: &[ReserveLine],
    values: &[PayValues],
    due: Option<PayValues>,
    steps: &mut Steps<L>,
) -> Result<ValueReport, Memory>
    requires { (b : Basis) × ((premium : Option PlainPay)
        × AreContractValues b (map pay_of pays.now) premium reserves.now values.now due) }
    ensures encloses { IfOk result (λ report. (b : Basis) (premium : Option PlainPay)
        → AreContractValues b (map pay_of pays.now) premium reserves.now values.now due
        → EnclosesReport b (map pay_of pays.now) (option_map (λ pay. pay.body) premium)
        reserves.now (report_of report)) }
    ensures printable { IfOk result (λ report. IsPrintableReport (report_of report)) }
{
    let starts = starts(alloc, values)?;
    let lines = pay_lines(alloc, pays, &starts)?;
    let all = benefits(pays, &starts);
    // The proof sees here that the ends are in order.
    let _ = all.lo();
    let premium = premium_of(all, due);
    let reserve_lines = reserve_lines(alloc, pays, reserves, values, &premium, steps)?;
    Ok(ValueReport {
        pays: lines,
        total: all.to_nano(),
        premium: line_of(&premium),
        reserves: reserve_lines,
    })
}

// The premium, from the value of all pays together at the start.
fn premium_of(all: Ival, due: Option<PayValues>) -> Option<Premium>
    requires all { IsWithin all (pos 0) (pos GREATEST_FACTOR) }
    requires due { IfSome due CanDivide }
    ensures has { (b : Basis) (pays : List PlainPay) (premium : Option PlainPay)
        (reserves : List ReserveLine) → EnclosesBenefits b pays 0 all_lives all
        → ArePremiumValues b reserves premium due
        → HasPremium b pays (option_map (λ pay. pay.body) premium) reserves result }
    ensures taken_off { (place : ℕ) → IfSome due (λ values. CanMultiplyAt place values.later.items)
        → IfSome result (CanBeTakenOffAt place) }
    ensures printable { IfSome result (λ premium. IsPrintable premium.line.line) }
{
    match due {
        None => None,
        Some(values) => Some(Premium {
            line: premium_line(all, values.start),
            due: values.later,
        }),
    }
}

// The line of the premium, if there is one.
fn line_of(premium: &Option<Premium>) -> Option<Nano>
    ensures { result ≡ option_map (λ premium. premium.line.line) premium.now }
{
    match premium {
        None => None,
        Some(premium) => Some(premium.line.line),
    }
}

// The lines of all reserves.
fn reserve_lines<L: Ledger>(
    alloc: Global,
    pays: &[Pay],
    reserves: &[ReserveLine],
    values: &[PayValues],
    premium: &Option<Premium>,
    steps: &mut Steps<L>,
) -> Result<Vec<Nano>, Memory>
    requires same { length values.now ≡ length pays.now }
    requires pays { (place : ℕ) → place < length reserves.now
        → CanBeAddedAt (map pay_of pays.now) values.now place }
    requires premium { (place : ℕ) → place < length reserves.now
        → IfSome premium.now (CanBeTakenOffAt place) }
    ensures encloses { IfOk result (λ lines. (b : Basis) (status : Option Tree)
        → AllZip (AreValuesOf b reserves.now) (map pay_of pays.now) values.now
        → HasPremium b (map pay_of pays.now) status reserves.now premium.now
        → AreReserveLines b (map pay_of pays.now) status reserves.now lines.items) }
    ensures printable { IfOk result (λ lines. All IsPrintable lines.items) }
{
    let mut lines = Vec::new(alloc);
    for place in 0..reserves.len() {
        let column = at_reserve(alloc, values, place)?;
        let later = benefits(pays, &column);
        lines.push(one_reserve(later, premium, place, steps))?;
    }
    Ok(lines)
}

// The line of the reserve of a place, from the value then of all pays together.
fn one_reserve<L: Ledger>(
    later: Ival,
    premium: &Option<Premium>,
    place: usize,
    steps: &mut Steps<L>,
) -> Nano
    requires later { IsWithin later (pos 0) (pos GREATEST_FACTOR) }
    requires premium { IfSome premium.now (CanBeTakenOffAt place) }
    ensures encloses { (b : Basis) (pays : List PlainPay) (status : Option Tree)
        (reserves : List ReserveLine) → let reserve = reserve_at reserves place in
        place < length reserves → HasPremium b pays status reserves premium.now
        → EnclosesBenefits b pays reserve.time (has_bit reserve.alive) later
        → IsReserveLine b pays status reserve.time (has_bit reserve.alive) result }
    ensures printable { IsPrintable result }
{
    // The proof sees here that the ends are in order.
    let _ = later.lo();
    match premium {
        None => reserve_line(later, None, Ival::exact(0), steps),
        Some(premium) => {
            let due = premium.due[place];
            reserve_line(later, Some(premium.line.premium), due, steps)
        }
    }
}
