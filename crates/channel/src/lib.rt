//! One channel of the card: its record, what a tick does to it, and its registers.
#![tactic(auto)]

pub mod act;
pub mod channel;
pub mod lines;
pub mod mode;
