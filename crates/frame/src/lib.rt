//! SSI frame words, one definition for the sender and the reader: Gray code, layout and parity.
#![tactic(auto)]

pub mod format;
pub mod gray;
pub mod laws;
pub mod reader;
pub mod sender;
mod widths;
