//! The card as its host sees it: power-on, ticks, register reads and writes.
#![tactic(auto)]

use channel::channel::Channel;
use table::CHANNELS;

mod access;
pub mod shared;
mod shared_registers;
mod snapshots;
mod ticks;
mod words;

use shared::Shared;

/// The card's state: the table of channels, and what is named for no single channel.
#[derive(Clone, Copy)]
pub struct Card {
    channels: [Channel; CHANNELS],
    shared: Shared,
}

/// The levels that a tick answers, bit k for channel k: the SSI clocks and the 24 V outputs.
#[derive(Clone, Copy)]
pub struct Levels {
    pub clocks: u8,
    pub outputs: u8,
}
