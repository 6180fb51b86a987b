// The lines of a trace after the first, as a list of calls, and the line that is none.
#![tactic(auto)]

pub mod faults;
pub mod scripts;
