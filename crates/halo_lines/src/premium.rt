// The line of the premium.
ghost use Rattle.std.specs.Prelude.{List, pos, ◌≤ℤ◌};
ghost use Rattle.halo_num.specs.Ends.{IsWithin, fine};
ghost use Rattle.halo_status.specs.Pay.{PlainPay};
ghost use Rattle.halo_status.specs.Tree.{Tree};
ghost use Rattle.halo_model.specs.Basis.{Basis};
ghost use Rattle.halo_model.specs.Enclosed.{EnclosesBenefits, EnclosesOne, EnclosesPremium};
ghost use Rattle.halo_model.specs.Line.{IsPremiumLine};
ghost use Rattle.halo_contract.specs.Premium.{all_lives, premium_pay};
ghost use Rattle.halo_lines.specs.Printable.{IsPrintable};

use halo_num::{GREATEST_DIVISOR, GREATEST_FACTOR, Ival, Nano};
use halo_premium::premium;

/// A premium, and its two ends as they are printed.
#[derive(Clone, Copy, Debug, PartialEq, Eq)]
pub struct PremiumLine {
    /// The premium, from which the reserves are told.
    pub premium: Ival,
    /// Its ends in printed units.
    pub line: Nano,
}

/// The premium, from the value at the start of all pays together and that of a premium of 1.
pub fn premium_line(benefits: Ival, due: Ival) -> PremiumLine
    requires benefits_from { pos 0 ≤ℤ benefits.lo }
    requires benefits_in { benefits.hi ≤ℤ pos GREATEST_FACTOR }
    requires due_from { pos fine ≤ℤ due.lo }
    requires due_in { due.hi ≤ℤ pos GREATEST_DIVISOR }
    ensures premium { (b : Basis) (pays : List PlainPay) (status : Tree)
        → EnclosesBenefits b pays 0 all_lives benefits
        → EnclosesOne b (premium_pay status) 0 all_lives due
        → EnclosesPremium b pays status result.premium }
    ensures line { (b : Basis) (pays : List PlainPay) (status : Tree)
        → EnclosesBenefits b pays 0 all_lives benefits
        → EnclosesOne b (premium_pay status) 0 all_lives due
        → IsPremiumLine b pays status result.line }
    ensures within { IsWithin result.premium (pos 0) (pos GREATEST_FACTOR) }
    ensures printable { IsPrintable result.line }
{
    let premium = premium(benefits, due);
    // The proof sees here that the ends are in order.
    let _ = premium.lo();
    let line = premium.to_nano();
    PremiumLine { premium, line }
}
