//! The two halves of a rig's tick that concern the field: its levels on the lines, and its clocks.
#![tactic(auto)]

pub mod clocks;
pub mod lines;
