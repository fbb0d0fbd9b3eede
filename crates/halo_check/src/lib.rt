//! The checks on a line of a contract file, in their order, behind the lines that came before it.
#![tactic(auto)]

mod addition;
mod among;
mod checks;
mod declared;
mod draft;
mod error;
mod fault;
mod first_failed;
mod forms;
pub mod laws;
mod limits;
mod memory;
mod names;
mod node_count;
mod numbers;
mod parts;
mod ranks;
mod sharing;
mod statuses;
mod zero;

pub use addition::Addition;
pub use among::is_among;
pub use declared::place_of_life;
pub use draft::Draft;
pub use error::LineError;
pub use fault::ContractKind;
pub use first_failed::check_writing;
pub use limits::{GREATEST_AGE, GREATEST_AMOUNT, GREATEST_PART, LAST_YEAR, MOST_LIVES, MOST_RATES};
pub use memory::Memory;
pub use names::place_of_table;
pub use numbers::{age_within, number_within, rank_within, years_within};
pub use statuses::check_statuses;
