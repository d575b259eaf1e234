//! When a debounce filter samples, as plain numbers, as the table of channels keeps them.

/// The two numbers of a filter; lines with one debouncing register share them.
#[derive(Clone, Copy)]
pub struct FilterTiming {
    /// Ticks from one sample to the next.
    pub period: u64,
    /// Ticks since the last sample, or since the restart.
    pub phase: u64,
}
