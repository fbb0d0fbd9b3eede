// From a pay to the segments of its form: the times at which it exists on the same sets of lives.
ghost use Rattle.std.specs.Prelude.{◌≡◌, ◌≢◌, ℕ, ◌+◌, ◌^◌, ◌<◌, ◌≤◌, length, IfOk};
ghost use Rattle.halo_sums.specs.SetMasks.{CountsSets};
ghost use Rattle.halo_status.specs.Pay.{pay_of};
ghost use Rattle.halo_status.specs.Naming.{names_term};
ghost use Rattle.halo_model.specs.Segment.{coefficients_at, first_time};
ghost use Rattle.halo_model.specs.Counts.{form_weight};
ghost use Rattle.halo_compile.specs.Marks.{AreNamed, MarksExistence};
ghost use Rattle.halo_compile.specs.Form.{IsForm};
ghost use Rattle.halo_compile.specs.Terms.{last_term};
ghost use Rattle.halo_compile.specs.Weight.{greatest_weight};

use crate::existence::{exists_as_marked, mark_existence};
use crate::naming::named_among;
use crate::{Form, Memory, Segment};
use halo_interest::LAST_TIME;
use halo_poly::Poly;
use halo_status::{Kind, Pay};
use std::alloc::Global;

/// The compiled form of a pay.
///
/// Its segments cover the times from 0 to the horizon less 1, or those from 1 to the horizon for an
/// annuity-immediate. Each has the coefficients of the pay at its times, which change from one
/// segment to the next: on each set of lives its polynomial is 1 where the pay's body exists, or
/// where the pay waits on its marked member, and else 0. M is the number of sets of the lives.
/// Beside making its M coefficients, a segment goes over the sets of the named lives alone.
pub fn compile<const M: usize>(alloc: Global, pay: &Pay, horizon: u16) -> Result<Form<M>, Memory>
    requires sets { CountsSets M }
    requires some { 1 ≤ horizon }
    requires few { horizon ≤ LAST_TIME }
    ensures form { (n : ℕ) → M ≡ 2 ^ n →
        IfOk result (λ form. IsForm (pay_of pay.now) n horizon form) }
    ensures weight { (n : ℕ) → M ≡ 2 ^ n →
        IfOk result (λ form. greatest_weight form ≡ form_weight (pay_of pay.now) n horizon) }
{
    let named = named_among::<M>(&pay.body);
    let mut from = first_time(pay.kind);
    let end = from + horizon;
    let mut marked = vec![in alloc; false; M]?;
    let mut segments = Vec::new(alloc);
    while from < end {
        mark_existence(&mut marked, pay, from, named);
        let until = next_change(pay, named, &marked, from, end);
        let poly = Poly::of_sets_within(alloc, &marked, named)?;
        let segment = Segment {
            from,
            to: until - 1,
            poly,
        };
        segments.push(segment)?;
        from = until;
    }
    Ok(Form { segments })
}

// The first time of a form.
fn first_time(kind: Kind) -> u16
    ensures { result ≡ first_time kind }
{
    match kind {
        Kind::Insurance | Kind::Due => 0,
        Kind::Immediate => 1,
    }
}

// Whether a term of a pay is on at the time before and no longer on at this time.
fn term_ends(pay: &Pay, t: u16) -> bool
    requires { 1 ≤ t }
    ensures { result ≡ names_term (last_term (pay_of pay.now).kind t) (pay_of pay.now).body }
{
    match pay.kind {
        Kind::Insurance | Kind::Due => pay.body.has_term(t),
        Kind::Immediate => pay.body.has_term(t - 1),
    }
}

// The first time after `from` at which the pay exists on other sets than at `from`, or the end.
fn next_change(pay: &Pay, named: u16, marked: &[bool], from: u16, end: u16) -> u16
    requires few { named < length marked.now }
    requires marks { MarksExistence (pay_of pay.now) from named marked.now }
    requires before { from < end }
    ensures later { from < result }
    ensures within { result ≤ end }
    ensures same { (n : ℕ) → AreNamed n (pay_of pay.now).body named →
        (t : ℕ) → from ≤ t → t < result →
        coefficients_at (pay_of pay.now) n t ≡ coefficients_at (pay_of pay.now) n from }
    ensures changes { (n : ℕ) → length marked.now ≡ 2 ^ n → result < end →
        coefficients_at (pay_of pay.now) n result ≢ coefficients_at (pay_of pay.now) n from }
{
    for t in from + 1..end {
        if term_ends(pay, t) && !exists_as_marked(marked, pay, t, named) {
            return t;
        }
    }
    end
}
