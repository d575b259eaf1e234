//! The counter of one channel: count, compare, latch and status bits behind its registers.
#![tactic(auto)]

pub mod counter;
pub mod flags;
mod registers;
