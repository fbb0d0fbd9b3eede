// The order of the forms of lines.
ghost use Rattle.std.specs.Prelude.{◌≡◌, ◌↔◌, IsTrue};
ghost use Rattle.halo_syntax.specs.Forms.{form_of};
ghost use Rattle.halo_check.specs.FormOrder.{CameBefore, IsInOrder};
ghost use Rattle.halo_syntax.specs.LineView.{plain_line};
ghost use Rattle.halo_check.specs.DraftView.{draft_of};

use crate::draft::Draft;
use halo_syntax::{Form, Line};

/// The form of a line.
pub fn form_of(line: &Line<'_>) -> Form
    ensures { result ≡ form_of (plain_line line.now) }
{
    match line {
        Line::Interest { .. } => Form::Interest,
        Line::Life { .. } => Form::Life,
        Line::Ties(_) => Form::Ties,
        Line::Pay { .. } => Form::Pay,
        Line::Premium(_) => Form::Premium,
        Line::Reserve { .. } => Form::Reserve,
    }
}

/// Whether a line of this form came before.
pub fn came_before(draft: &Draft, form: Form) -> bool
    ensures { IsTrue result ↔ CameBefore (draft_of draft.now) form }
{
    match form {
        Form::Interest => draft.interest.is_some(),
        Form::Life => !draft.lives.is_empty(),
        Form::Ties => draft.ties.is_some(),
        Form::Pay => !draft.pays.is_empty(),
        Form::Premium => draft.premium.is_some(),
        Form::Reserve => !draft.reserves.is_empty(),
    }
}

/// Order: whether no line of a later form came before.
pub fn is_in_order(draft: &Draft, form: Form) -> bool
    ensures { IsTrue result ↔ IsInOrder (draft_of draft.now) form }
{
    let mut behind = form;
    while let Some(later) = behind.next() {
        if came_before(draft, later) {
            return false;
        }
        behind = later;
    }
    true
}
