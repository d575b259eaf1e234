//! The count of one counter: what a tick, a load or new settings make of it.
#![tactic(auto)]

pub mod count;
pub mod levels;
pub mod step;
