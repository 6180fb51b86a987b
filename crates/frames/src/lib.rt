// Register files: what they mean, the calls on them, and the flat file.
#![tactic(auto)]

pub mod calls;
pub mod file;
pub mod flat;
pub mod frame;
pub mod register;
pub mod texts;
