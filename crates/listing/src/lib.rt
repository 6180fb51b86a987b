// The frames that a register file is left with, as text.
#![tactic(auto)]

pub mod texts;
pub mod unwinding;
