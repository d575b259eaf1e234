//! Fields: the sensors at the channels of a card, and plugs that put a sensor over a field.
#![tactic(auto)]

pub mod empty;
pub mod field;
pub mod laws;
pub mod plug;
pub mod plug_field;
