//! Annuities of pays whose body is read once, valued along the tree of the body.
//!
//! A payment is worth the discount factor of its years times the chance along the tree that the
//! body exists then. The value at a time is the sum over the payments from there to the horizon:
//! no sums over sets of lives are needed.
//!
//! An insurance that pays whenever its body fails pays for the fall of its existence from one year
//! to the next, so its value is a sum over the years in the same way. Any other insurance, with a
//! mark or with causes, pays on the leaving of each life and on the ends of its terms what the
//! status on which it waits loses with them.
#![tactic(auto)]

mod annuity;
mod bounds;
mod by_kind;
mod contingent;
mod ending;
mod insurance;
mod insured_years;
mod leaving;
mod lives;
mod parts;
mod tree_task;
mod years;

pub use annuity::annuity_along;
pub use bounds::{least_of_annuity, most_of_annuity};
pub use by_kind::value_along;
pub use contingent::contingent_along;
pub use insurance::insurance_along;
pub use leaving::looked_at;
pub use lives::survivals;
pub use parts::{on_life_along, on_term_along};
pub use tree_task::TreeTask;
