//! The values of insurances: on one event or on all, by sets of lives, from the last year back.
//!
//! For each set of lives the value is found as if just these lives were alive, with the
//! coefficients of the insurance's form: a year back, what is due at the end of the year and what
//! comes after are discounted together. One pass from the horizon back gives the values of all sets
//! of the lives that a body names at each time, and the value for some lives alive is the sum over
//! the sets within them. On the end of a term only one year pays, so what falls on it takes no
//! pass; nor does what falls on the leaving of one life, where the lives of one year leave in the
//! declared order.
//!
//! Where no life stands in a body twice, a value at one time goes along the tree of the body
//! instead, if the tree can tell it: it needs no sums over sets of lives.
#![tactic(auto)]

mod along;
mod due;
mod ending;
mod events;
pub mod laws;
mod leavings;
mod one_leaving;
mod one_year;
mod parts;
mod pass;
mod sets;
mod step;
mod value;
mod whole;

pub use parts::{on_life, on_term};
pub use step::{at_horizon, year_back};
pub use value::value_at;
pub use whole::{contingent, insurance, insurance_all};
