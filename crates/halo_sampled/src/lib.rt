//! What the two files of a sample hold: neither has a fault, whatever the number.
//!
//! The tables file holds the tables that are drawn, and the contract file a contract on them, so a
//! sample can be valued like any files.
#![tactic(auto)]

pub mod laws;
