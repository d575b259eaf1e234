//! When a debounce filter samples, with numbers that always make sense.
ghost use Rattle.std.specs.Prelude.{◌<◌, ◌≤◌};

pub mod ticking;

/// A filter has a period of at least one tick and a phase below it.
#[derive(Clone, Copy)]
pub struct FilterClock {
    period: u64,
    phase: u64,
    ghost paced: { 1 ≤ period },
    ghost within: { phase < period },
}
