// What a value call is asked for.
use crate::form::Form;
use halo_interest::Interest;
use halo_life::Group;
use halo_status::Pay;

/// A pay to be valued.
#[derive(Clone, Copy)]
pub struct Task<'a, const N: usize, const M: usize> {
    /// The pay. It is valued for an amount of 1, whatever its own amount.
    pub pay: &'a Pay,
    /// The form that [`compile`](crate::compile) gives for the pay at the horizon.
    pub form: &'a Form<M>,
    /// The lives of the contract, with the time and the set alive for which the pay is valued.
    pub group: &'a Group<'a, N>,
    /// The interest of each year.
    pub interest: &'a Interest,
    /// The horizon of the pay's body on these lives, in years from time 0.
    pub horizon: u16,
}
