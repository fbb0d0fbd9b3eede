//! Annuities on the statuses of up to twelve lives, over the years backward.
//!
//! At each time each set of the lives that a body names has two values, what its coefficient adds
//! and what it takes off: what is paid then, and the values of the next time, discounted for a year
//! and times the chance of the set to survive it. At the horizon nothing is left to be paid; one
//! step gives the values of all these sets at a time by those a year later, whatever the time of
//! the valuation. The value at a time on some living lives is the total over the sets within them.
//!
//! Where no life stands in a body twice, the value of one annuity needs no sets: `annuity` then
//! finds it along the tree of the body.
#![tactic(auto)]

mod annuities;
mod carry;
mod coefficient;
mod one_set;
mod paid;
mod sets;
mod step;
mod term;
mod value;

pub use annuities::{annuity, annuity_all};
pub use paid::pay_segment;
pub use step::{at_horizon, year_back};
pub use term::{MOST_PART, term_of_paid, term_value};
pub use value::value_at;
