// The requests of a trace, read from text.
#![tactic(auto)]

pub mod lines;
pub mod numbered;
pub mod numbers;
pub mod requests;
pub mod setups;
