// On which sets of lives a pay exists, 64 sets at a time.
ghost use Rattle.std.specs.Prelude.{◌≡◌, ◌/◌, ◌%◌, ◌<◌, ◌↔◌, IsTrue, false, get_or, length};
ghost use Rattle.halo_sums.specs.Masks.{has_bit};
ghost use Rattle.halo_status.specs.Blocks.{IsInBlock};
ghost use Rattle.halo_status.specs.Exists.{each_exists};
ghost use Rattle.halo_status.specs.Pay.{pay_of};
ghost use Rattle.halo_status.specs.StatusTree.{trees_in};
ghost use Rattle.halo_status.specs.View.{is_on};
ghost use Rattle.halo_model.specs.Coefficient.{view_of, waits_at_rank};
ghost use Rattle.halo_compile.specs.Marks.{MarksBlock, MarksExistence};

use halo_status::{Kind, Mark, Members, Pay, Status, View, exactly_in_block};
use halo_sums::next_within;

// The sets of a block, one for each bit of a number.
const BLOCK: u16 = 64;

// At which end of the years a kind of pay looks at its terms.
pub(crate) fn view_of(kind: Kind) -> View
    ensures { result ≡ view_of kind }
{
    match kind {
        Kind::Insurance | Kind::Due => View::Due,
        Kind::Immediate => View::Immediate,
    }
}

// On which sets of a block the member at a place exists.
fn member_exists(members: &Members, place: usize, block: u16, view: View, t: u16) -> u64
    ensures { IsInBlock block (λ alive.
        get_or (each_exists alive (is_on view t) (trees_in members.now)) place false) result }
{
    if place < members.len() {
        members.at(place).exists_in_block(block, view, t)
    } else {
        0
    }
}

// On which sets of a block the marked member exists and exactly as many others as there are when it
// is next to fail at its rank.
fn waits_at_rank(members: &Members, mark: Mark, block: u16, view: View, t: u16) -> u64
    ensures { IsInBlock block (λ alive.
        waits_at_rank mark (each_exists alive (is_on view t) (trees_in members.now))) result }
{
    let others = members.len().saturating_sub(mark.rank as usize);
    let count = (others + 1) as u8;
    member_exists(members, mark.member as usize, block, view, t)
        & exactly_in_block(members, count, block, view, t)
}

// On which sets of a block a pay exists at a time: its body, or its marked member at its rank.
#[tactic(auto, using(halo_status::proofs::Shapes::shapes))]
fn exists_by_mark(pay: &Pay, block: u16, t: u16) -> u64
    ensures { MarksBlock (pay_of pay.now) t block result }
{
    let view = view_of(pay.kind);
    match pay.mark {
        None => pay.body.exists_in_block(block, view, t),
        Some(mark) => match &pay.body {
            Status::Joint(members) => waits_at_rank(members, mark, block, view, t),
            Status::Life(_) => 0,
            Status::Term(_) => 0,
            Status::Last(_) => 0,
            Status::AtLeast(..) => 0,
            Status::Exactly(..) => 0,
            Status::After(..) => 0,
        },
    }
}

// On which sets of the block of a set a pay exists, given what there was for another set.
fn marks_at(pay: &Pay, set: u16, other: u16, marks: u64, t: u16) -> u64
    requires { MarksBlock (pay_of pay.now) t (other / BLOCK) marks }
    ensures { MarksBlock (pay_of pay.now) t (set / BLOCK) result }
{
    let block = set / BLOCK;
    if block == other / BLOCK {
        marks
    } else {
        exists_by_mark(pay, block, t)
    }
}

// Whether a set is marked in its block.
fn is_marked(marks: u64, set: u16) -> bool
    ensures { result ≡ has_bit marks (set % BLOCK) }
{
    marks >> (set % BLOCK) & 1 == 1
}

// Marks those sets within `named` on which a pay exists at a time, and unmarks the others of them.
pub(crate) fn mark_existence(marked: &mut [bool], pay: &Pay, t: u16, named: u16)
    requires { named < length marked.old }
    ensures length { length marked.new ≡ length marked.old }
    ensures marks { MarksExistence (pay_of pay.now) t named marked.new }
{
    let mut marks = exists_by_mark(pay, 0, t);
    marked[0] = is_marked(marks, 0);
    let mut set = 0;
    while set != named {
        let next = next_within(set, named);
        marks = marks_at(pay, next, set, marks, t);
        marked[next as usize] = is_marked(marks, next);
        set = next;
    }
}

// Whether a pay exists at a time, of the sets within `named`, on those that are marked.
pub(crate) fn exists_as_marked(marked: &[bool], pay: &Pay, t: u16, named: u16) -> bool
    requires { named < length marked.now }
    ensures { IsTrue result ↔ MarksExistence (pay_of pay.now) t named marked.now }
{
    let mut marks = exists_by_mark(pay, 0, t);
    if marked[0] != is_marked(marks, 0) {
        return false;
    }
    let mut set = 0;
    while set != named {
        let next = next_within(set, named);
        marks = marks_at(pay, next, set, marks, t);
        if marked[next as usize] != is_marked(marks, next) {
            return false;
        }
        set = next;
    }
    true
}
