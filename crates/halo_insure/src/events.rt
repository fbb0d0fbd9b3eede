// The events of an insurance that count in a pass over its years.
ghost use Rattle.std.specs.Prelude.{◌≡◌, ℕ, ◌<◌};
ghost use Rattle.halo_sums.specs.Masks.{has_bit};
ghost use Rattle.halo_status.specs.Naming.{NamesLivesBelow};
ghost use Rattle.halo_status.specs.Pay.{pay_of};
ghost use Rattle.halo_status.specs.StatusTree.{tree_of};
ghost use Rattle.halo_insure.specs.Dues.{ends_count};
ghost use Rattle.halo_insure.specs.Events.{AreEventsOf, events_of};
ghost use Rattle.halo_insure.specs.Leavings.{counts};

use halo_compile::{can_fall_on_term, failing_lives};
use halo_status::Pay;

/// Every event, the leaving of one life, or the end of the terms of so many years.
#[derive(Clone, Copy)]
pub(crate) enum Events {
    Every,
    Leaving(u8),
    End(u16),
}

/// The lives whose leavings count: they are among the events, and a payment can fall on them.
pub(crate) fn counted_lives(pay: &Pay, events: Events) -> u16
    requires lives { NamesLivesBelow 16 (tree_of pay.now.body) }
    requires events { AreEventsOf 16 events }
    ensures { (i : ℕ) → has_bit result i ≡ counts (pay_of pay.now) (events_of events) i }
{
    match events {
        Events::Every => failing_lives(pay),
        Events::Leaving(life) => failing_lives(pay) & (1 << life),
        Events::End(_) => 0,
    }
}

/// Whether the end of a term of `n` years counts.
pub(crate) fn end_counts(pay: &Pay, events: Events, n: u16) -> bool
    ensures { result ≡ ends_count (pay_of pay.now) (events_of events) n }
{
    match events {
        Events::Every => can_fall_on_term(pay, n),
        Events::Leaving(_) => false,
        Events::End(years) => n == years && can_fall_on_term(pay, n),
    }
}
