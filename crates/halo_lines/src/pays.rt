// The lines of the pays of a contract, and all pays together.
ghost use Rattle.std.specs.Prelude.{◌≡◌, All, Bool, IfOk, length, map, pos, ℕ};
ghost use Rattle.halo_num.specs.Ends.{IsWithin};
ghost use Rattle.halo_status.specs.Pay.{pay_of};
ghost use Rattle.halo_model.specs.Basis.{Basis};
ghost use Rattle.halo_model.specs.Enclosed.{EnclosesBenefits};
ghost use Rattle.halo_contract.specs.Premium.{all_lives};
ghost use Rattle.halo_lines.specs.Printable.{IsPrintable};
ghost use Rattle.halo_lines.specs.PayLines.{ArePayLines};
ghost use Rattle.halo_lines.specs.Values.{AreValues, HaveRoom};

use crate::Memory;
use halo_num::{GREATEST_FACTOR, Ival, Nano};
use halo_premium::add_pay;
use halo_status::Pay;
use std::alloc::Global;

/// The most that a pay of amount 1 is worth, in ones: 201 payments of at most 201.
pub const MOST_WORTH: u64 = 40_401;

/// The lines of some pays, from the value at the start of each with amount 1.
pub fn pay_lines(alloc: Global, pays: &[Pay], values: &[Ival]) -> Result<Vec<Nano>, Memory>
    requires same { length values.now ≡ length pays.now }
    requires room { HaveRoom (map pay_of pays.now) values.now }
    ensures lines { IfOk result (λ lines. (b : Basis)
        → AreValues b 0 all_lives (map pay_of pays.now) values.now
        → ArePayLines b (map pay_of pays.now) lines.items) }
    ensures printable { IfOk result (λ lines. All IsPrintable lines.items) }
{
    let mut lines = Vec::new(alloc);
    for place in 0..pays.len() {
        let benefit = add_pay(Ival::exact(0), pays[place].amount, values[place]);
        // The proof sees here that the ends are in order.
        let _ = benefit.lo();
        lines.push(benefit.to_nano())?;
    }
    Ok(lines)
}

/// All pays together, from the value of each with amount 1: at the start, or at a later time with
/// some lives alive, where the values are of that time and these lives.
pub fn benefits(pays: &[Pay], values: &[Ival]) -> Ival
    requires same { length values.now ≡ length pays.now }
    requires room { HaveRoom (map pay_of pays.now) values.now }
    ensures benefits { (b : Basis) (T : ℕ) (S : ℕ → Bool)
        → AreValues b T S (map pay_of pays.now) values.now
        → EnclosesBenefits b (map pay_of pays.now) T S result }
    ensures within { IsWithin result (pos 0) (pos GREATEST_FACTOR) }
{
    let mut total = Ival::exact(0);
    for place in 0..pays.len() {
        total = add_pay(total, pays[place].amount, values[place]);
    }
    total
}
