//! Debounce filters: what the card sees of a line, and how often it looks.
#![tactic(auto)]

pub mod clock;
pub mod debounce;
pub mod samples;
pub mod timing;
