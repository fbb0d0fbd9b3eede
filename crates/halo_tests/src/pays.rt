// Pays of 1 on statuses of three lives.
ghost use Rattle.std.specs.Prelude.{◌≡◌, ◌≢◌, IfOk};
ghost use Rattle.halo_status.specs.Naming.{NamesLivesBelow};
ghost use Rattle.halo_status.specs.Pay.{pay_of};
ghost use Rattle.halo_status.specs.ValidPay.{HasValidVary, IsValidPay};
ghost use Rattle.halo_status.specs.declared.pay.Kind.TheVariants.{Insurance};
ghost use Rattle.halo_model.specs.Horizon.{HasShortTerms};

use crate::bodies::{Body, first_and, status_of};
use halo_interest::LAST_TIME;
use halo_status::{Kind, Mark, Pay, Status, Vary};
use std::alloc::Global;
use std::process::Abort;
use std::test::Fail;

fn vary_of(increasing: bool) -> Vary
    ensures { HasValidVary result }
{
    if increasing {
        Vary::Increasing
    } else {
        Vary::Level
    }
}

// An annuity on a status.
pub fn annuity_on(
    rt: &impl Abort,
    alloc: Global,
    kind: Kind,
    increasing: bool,
    defer: u16,
    body: Body,
) -> Result<Pay, Fail>
    ensures { IfOk result (λ pay. IsValidPay (pay_of pay) × NamesLivesBelow 3 (pay_of pay).body
        × HasShortTerms (pay_of pay).body × (pay.kind ≢ Insurance)) }
{
    assert!(rt; kind != Kind::Insurance && defer <= LAST_TIME);
    Ok(Pay {
        amount: 1,
        vary: vary_of(increasing),
        kind,
        defer,
        causes: None,
        body: status_of(alloc, body)?,
        mark: None,
    })
}

// An insurance on a status, by some causes.
pub fn insurance_on(
    rt: &impl Abort,
    alloc: Global,
    increasing: bool,
    defer: u16,
    causes: Option<u8>,
    body: Body,
) -> Result<Pay, Fail>
    ensures { IfOk result (λ pay. IsValidPay (pay_of pay) × NamesLivesBelow 3 (pay_of pay).body
        × HasShortTerms (pay_of pay).body × (pay.kind ≡ Insurance)) }
{
    let body = status_of(alloc, body)?;
    assert!(rt; causes != Some(0) && defer <= LAST_TIME && body.lasting());
    Ok(Pay {
        amount: 1,
        vary: vary_of(increasing),
        kind: Kind::Insurance,
        defer,
        causes,
        body,
        mark: None,
    })
}

// A level insurance on the first two lives that pays on the failure of one of them at a rank, by
// some causes.
#[tactic(auto, using(halo_status::proofs::Shapes::shapes))]
pub fn insurance_at(
    rt: &impl Abort,
    alloc: Global,
    mark: Mark,
    causes: Option<u8>,
    defer: u16,
) -> Result<Pay, Fail>
    ensures { IfOk result (λ pay. IsValidPay (pay_of pay) × NamesLivesBelow 3 (pay_of pay).body
        × HasShortTerms (pay_of pay).body × (pay.kind ≡ Insurance)) }
{
    assert!(rt; mark.member <= 1 && 1 <= mark.rank && mark.rank <= 2);
    assert!(rt; causes != Some(0) && defer <= LAST_TIME);
    Ok(Pay {
        amount: 1,
        vary: Vary::Level,
        kind: Kind::Insurance,
        defer,
        causes,
        body: Status::Joint(first_and(alloc, Status::Life(1))?),
        mark: Some(mark),
    })
}
