//! The SSI controller of one channel: its settings, its phases tick by tick, and its registers.
#![tactic(auto)]

pub mod control;
pub mod laws;
pub mod phase;
pub mod registers;
