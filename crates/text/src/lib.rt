//! The text of scripts: lines, fields, numbers, and what a line asks for.
#![tactic(auto)]

mod command;
mod digits;
mod fault;
mod reader;

pub use command::{Command, parse_line};
pub use fault::Fault;
pub use reader::Reader;
