// Refusals: what each layer of the machine answers in place of what it was asked for.
#![tactic(auto)]

pub mod faults;
pub mod layers;
pub mod refusals;
