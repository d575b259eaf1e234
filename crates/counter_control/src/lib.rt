//! The Counter Mode Control word as named settings, decoded once when it is written.
#![tactic(auto)]

pub mod control;
pub mod modes;
