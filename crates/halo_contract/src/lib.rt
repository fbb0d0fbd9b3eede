//! The contract that is valued: yearly interest, lives, the rule for ties, pays, a premium and
//! reserves, in memory and as plain data, and what holds of each contract that can be valued.
#![tactic(auto)]

mod contract;
mod limits;
mod ties;

pub use contract::{Contract, LifeLine, ReserveLine};
pub use limits::{LARGEST_TOTAL, LAST_RESERVE, MOST_LIVES, MOST_PAYS, MOST_RESERVES};
pub use ties::Ties;
