//! Position sensors with a synchronous serial line: what a sensor means, and the kinds that there are.
#![tactic(auto)]

pub mod constants;
pub mod gray;
pub mod gray_kind;
pub mod laws;
pub mod number;
pub mod number_kind;
pub mod phase;
pub mod refusal;
pub mod sensor;
pub mod shift_register;
mod shifting;
