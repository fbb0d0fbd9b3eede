// The parts of an annuity: what each coefficient of its form adds to its value.
ghost use Rattle.std.specs.Prelude.{◌≢◌, [], ◌∷◌, ◌<◌, All, IfOk, OnOk, length};
ghost use Rattle.halo_sums.specs.Masks.{bits};
ghost use Rattle.halo_status.specs.Pay.{pay_of};
ghost use Rattle.halo_status.specs.declared.pay.Kind.TheVariants.{Insurance};
ghost use Rattle.halo_model.specs.PayPart.{parts_by_sets, run_parts};
ghost use Rattle.halo_compile.specs.Form.{run_of, segment_at};
ghost use Rattle.halo_compile.specs.OfTask.{basis_of_task};
ghost use Rattle.halo_compile.specs.ValidTask.{IsTask};
ghost use Rattle.halo_compile.specs.Order.{AreSetsInOrder};
ghost use Rattle.halo_annuity.specs.Payments.{ArePaidInSegment};
ghost use Rattle.halo_lines.specs.Parts.{ExplainsPay, IsPrintablePart};
ghost use Rattle.halo_value.specs.Explained.{AddsParts};

use crate::Memory;
use halo_annuity::{pay_segment, term_of_paid};
use halo_compile::Task;
use halo_life::Work;
use halo_lines::{Part, part_line};
use halo_num::Steps;
use std::alloc::Global;
use std::sync::ledger::Ledger;

/// The parts of an annuity, segment by segment: for each set of lives, in canonical order, whose
/// coefficient is not 0.
pub fn parts_of_annuity<const N: usize, const M: usize, L: Ledger>(
    alloc: Global,
    task: &Task<N, M>,
    sets: &[u16],
    work: &mut Work<M>,
    steps: &mut Steps<L>,
) -> Result<Vec<Part>, Memory>
    requires task { IsTask task.now }
    requires annuity { task.now.pay.now.kind ≢ Insurance }
    requires sets { AreSetsInOrder N sets.now }
    ensures explains { IfOk result (λ parts. ExplainsPay
        (basis_of_task task.now task.now.group.now.ties) (pay_of task.now.pay.now) parts.items) }
    ensures printable { IfOk result (λ parts. All (IsPrintablePart N) parts.items) }
{
    let _start = task.group.start();
    let mut parts = Vec::new(alloc);
    for segment in 0..task.form.segments().len() {
        push_segment(task, segment, sets, work, &mut parts, steps)?;
    }
    Ok(parts)
}

// Adds the parts of a segment.
fn push_segment<const N: usize, const M: usize, L: Ledger>(
    task: &Task<N, M>,
    segment: usize,
    sets: &[u16],
    work: &mut Work<M>,
    into: &mut Vec<Part>,
    steps: &mut Steps<L>,
) -> Result<(), Memory>
    requires task { IsTask task.now }
    requires annuity { task.now.pay.now.kind ≢ Insurance }
    requires segment { segment < length task.now.form.now }
    requires sets { AreSetsInOrder N sets.now }
    ensures { OnOk result (AddsParts N
        (basis_of_task task.now task.now.group.now.ties) (pay_of task.now.pay.now)
        (run_parts (pay_of task.now.pay.now) N (run_of (segment_at task.now.form.now segment)))
        into.old.items into.new.items) }
{
    let _start = task.group.start();
    pay_segment(task, segment, work, steps);
    for set in sets {
        push_term(task, segment, *set, work, into)?;
    }
    Ok(())
}

// Adds the part of a set in a segment, if it has a coefficient there.
fn push_term<const N: usize, const M: usize>(
    task: &Task<N, M>,
    segment: usize,
    set: u16,
    work: &Work<M>,
    into: &mut Vec<Part>,
) -> Result<(), Memory>
    requires task { IsTask task.now }
    requires annuity { task.now.pay.now.kind ≢ Insurance }
    requires segment { segment < length task.now.form.now }
    requires set { set < M }
    requires paid { ArePaidInSegment task.now segment work.now }
    ensures { OnOk result (AddsParts N
        (basis_of_task task.now task.now.group.now.ties) (pay_of task.now.pay.now)
        (parts_by_sets (pay_of task.now.pay.now)
        (run_of (segment_at task.now.form.now segment)) (bits N set ∷ []))
        into.old.items into.new.items) }
{
    let _start = task.group.start();
    let run = task.form.segment(segment);
    let coefficient = run.poly.coefficient(set);
    if coefficient == 0 {
        return Ok(());
    }
    let value = term_of_paid(task, segment, set, work);
    into.push(Part::Term {
        from: run.from,
        to: run.to,
        coefficient,
        set,
        worth: part_line(task.pay.amount, value),
    })?;
    Ok(())
}
