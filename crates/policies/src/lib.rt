// Spill policies: how many windows a ring moves at a trap.
#![tactic(auto)]

pub mod adaptive;
pub mod amount;
pub mod fixed;
pub mod policy;
