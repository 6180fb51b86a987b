// The window ring: a register file over any save store and any spill policy.
#![tactic(auto)]

pub mod counts;
pub mod residency;
pub mod ring;
mod window;
pub mod window_count;
pub mod windows;
pub mod word_table;
