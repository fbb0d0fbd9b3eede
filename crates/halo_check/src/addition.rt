// What a line adds to a contract.
use halo_contract::{LifeLine, ReserveLine, Ties};
use halo_interest::Interest;
use halo_status::Pay;

/// What a line adds to a contract.
#[derive(Drop)]
pub enum Addition {
    Interest(Interest),
    Life(LifeLine),
    Ties(Ties),
    Pay(Pay),
    Premium(Pay),
    Reserve(ReserveLine),
}
