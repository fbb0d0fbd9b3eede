//! Tests of the public calls of the crates that value, print and answer. They stand in a crate of
//! their own, as the folder `tests` of a Cargo package does, so that they see what a user sees.
#![tactic(auto)]

#[cfg(test)]
mod annuities;
#[cfg(test)]
mod annuities_along;
#[cfg(test)]
mod bodies;
#[cfg(test)]
mod insurances;
#[cfg(test)]
mod insurances_along;
#[cfg(test)]
mod pays;
#[cfg(test)]
mod reports;
#[cfg(test)]
mod runs;
#[cfg(test)]
mod texts;
