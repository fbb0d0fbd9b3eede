// A contract, as its file writes it.
use crate::Ties;
use halo_interest::Interest;
use halo_status::Pay;
use halo_table::{Life, Name};

/// A life as it is declared: its name, and its table and age.
#[derive(Drop)]
pub struct LifeLine {
    pub name: Name,
    pub life: Life,
}

/// A reserve: its time in years, and the set of the lives that are alive then, life i as bit i.
#[derive(Clone, Copy, Debug, PartialEq, Eq)]
pub struct ReserveLine {
    pub time: u16,
    pub alive: u16,
}

/// A contract. The premium is kept as a level annuity-due of 1 on its status, without deferral.
#[derive(Drop)]
pub struct Contract {
    pub interest: Interest,
    /// The lives, in the order in which they are declared.
    pub lives: Vec<LifeLine>,
    pub ties: Ties,
    pub pays: Vec<Pay>,
    pub premium: Option<Pay>,
    pub reserves: Vec<ReserveLine>,
}
