//! The channel record: every bit that is named for one channel.
use crate::lines::Lines;
use crate::mode::Mode;
use controller::registers::Ssi;
use counter::counter::Counter;
use filter::debounce::Debounce;
use parts::input::Input;
use parts::interrupt::Interrupt;
use parts::snapshot::Snapshot;

mod modes;
mod registers;
mod shared;
mod snapshots;
mod ticks;

/// One channel of the card.
#[derive(Clone, Copy)]
pub struct Channel {
    pub lines: Lines,
    pub debounce: Debounce,
    pub input: Input,
    pub mode: Mode,
    pub counter: Counter,
    pub ssi: Ssi,
    pub snapshot: Snapshot,
    /// VCM: a match in Counter Mode, a completed transmission in SSI mode.
    pub valid: Interrupt,
    /// FCM: a control mode event in Counter Mode, a line fault in SSI mode.
    pub fault: Interrupt,
    /// DO.
    pub output: bool,
    /// OUT, which drives nothing.
    pub test_output: bool,
}
