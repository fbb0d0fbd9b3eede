// The line of a reserve.
ghost use Rattle.std.specs.Prelude.{◌≤◌, ◌+◌, Bool, IfNone, IfSome, List, None, Some, ℕ};
ghost use Rattle.std.specs.Prelude.{neg_ℤ, pos};
ghost use Rattle.halo_num.specs.Ends.{IsWithin};
ghost use Rattle.halo_status.specs.Pay.{PlainPay};
ghost use Rattle.halo_status.specs.Tree.{Tree};
ghost use Rattle.halo_reserve.specs.Reserve.{CanTakeOff};
ghost use Rattle.halo_model.specs.Basis.{Basis};
ghost use Rattle.halo_model.specs.Enclosed.{EnclosesBenefits, EnclosesOne, EnclosesPremium};
ghost use Rattle.halo_model.specs.Horizon.{horizon};
ghost use Rattle.halo_model.specs.Line.{IsReserveLine};
ghost use Rattle.halo_contract.specs.Premium.{premium_pay};
ghost use Rattle.halo_lines.specs.Printable.{IsPrintable};

use halo_num::{GREATEST_END, Ival, Nano, Steps};
use halo_reserve::reserve;
use std::sync::ledger::Ledger;

/// The line of the reserve at a time with some lives alive: from the value then of all pays
/// together, of a premium of 1, and from the premium, if there is one. It counts one product at
/// most.
pub fn reserve_line<L: Ledger>(
    later: Ival,
    premium: Option<Ival>,
    due: Ival,
    steps: &mut Steps<L>,
) -> Nano
    requires { IfSome premium (λ p. CanTakeOff later p due) }
    ensures without { IfNone premium ((b : Basis) (pays : List PlainPay) (T : ℕ) (S : ℕ → Bool)
        → EnclosesBenefits b pays T S later → IsReserveLine b pays None T S result) }
    ensures with { IfSome premium (λ p. (b : Basis) (pays : List PlainPay) (status : Tree)
        (T : ℕ) (S : ℕ → Bool) → horizon b.lives status ≤ b.last_time
        → EnclosesBenefits b pays T S later → EnclosesPremium b pays status p
        → EnclosesOne b (premium_pay status) T S due
        → IsReserveLine b pays (Some status) T S result) }
    ensures printable { IsWithin later (neg_ℤ (pos GREATEST_END)) (pos GREATEST_END)
        → IsPrintable result }
    ensures cost { steps.new ≤ steps.old + 1 }
{
    let reserve = reserve(later, premium, due, steps);
    // The proof sees here that the ends are in order.
    let _ = reserve.lo();
    reserve.to_nano()
}
