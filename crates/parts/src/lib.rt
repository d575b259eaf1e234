//! The small parts that a channel's record is made of: interrupts, its 24 V input, its snapshot.
#![tactic(auto)]

pub mod input;
pub mod interrupt;
pub mod snapshot;
