//! The rig: a card beside a field of sensors, and lists of calls on both.
#![tactic(auto)]

pub mod calls;
pub mod ticks;
