// A trace replayed on a register file: what is printed, and the line that could not be read.
#![tactic(auto)]

mod beside;
pub mod replaying;
mod rings;
