// The parts of a pay in memory, and the ends of each.
ghost use Rattle.std.specs.Prelude.{◌≡◌, ◌*◌, ◌≤◌, neg_ℤ, pos};
ghost use Rattle.halo_num.specs.Ends.{IsWithin, fine};
ghost use Rattle.halo_status.specs.Pay.{PlainPay};
ghost use Rattle.halo_model.specs.Basis.{Basis};
ghost use Rattle.halo_model.specs.PayPart.{EnclosesPayPart, IsPartLine, PayPart};
ghost use Rattle.halo_lines.specs.Printable.{IsPrintable};

use halo_num::{Ival, Nano};
use halo_premium::GREATEST_AMOUNT;

/// A part of a pay: an enclosure, in printed units of 10^-9, of what one coefficient of its form
/// adds, or what falls on one event.
#[derive(Clone, Copy, Debug, PartialEq, Eq)]
pub enum Part {
    /// What the coefficient of a set of lives adds at the times `from` to `to` of a segment of an
    /// annuity.
    Term {
        from: u16,
        to: u16,
        coefficient: i64,
        set: u16,
        worth: Nano,
    },
    /// What falls on the leaving of a life.
    OnLife {
        life: u8,
        worth: Nano,
    },
    /// What falls on the end of the term of so many years.
    OnTerm {
        years: u16,
        worth: Nano,
    },
}

/// The most that a part of a pay of amount 1 is worth in size, in ones: 201 payments of at most
/// 201, for a coefficient of at most 2048.
pub const MOST_PART: u64 = 82_741_248;

/// The two ends of a part of a pay, from what the part is worth with amount 1.
pub fn part_line(amount: u64, value: Ival) -> Nano
    requires amount { amount ≤ GREATEST_AMOUNT }
    requires small { IsWithin value (neg_ℤ (pos (MOST_PART * fine))) (pos (MOST_PART * fine)) }
    ensures line { (b : Basis) (pay : PlainPay) (part : PayPart) → pay.amount ≡ amount
        → EnclosesPayPart b pay part value → IsPartLine b pay part result }
    ensures printable { IsPrintable result }
{
    // The proof sees here that the ends are in order, of the value and of its multiple.
    let _ = value.lo();
    let worth = value.scale(amount as i64);
    let _ = worth.lo();
    worth.to_nano()
}
