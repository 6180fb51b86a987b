// Save stores: where a ring keeps the windows that it has no room for.
#![tactic(auto)]

pub mod flat;
pub mod lending;
pub mod stack;
pub mod store;
pub mod window;
