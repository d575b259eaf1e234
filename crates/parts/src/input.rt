//! A channel's 24 V input: its filter and its two edge interrupts.
ghost use Rattle.std.specs.Prelude.{◌≡◌};
ghost use Rattle.parts.specs.Inputs.{debounced_by, input_ticked, new_input, raised_by};

use crate::interrupt::Interrupt;
use filter::samples::Samples;
use filter::timing::FilterTiming;

/// The 24 V input of a channel.
#[derive(Clone, Copy)]
pub struct Input {
    pub timing: FilterTiming,
    pub samples: Samples,
    /// ADE: the filter has the period of the shared debouncing register, and not one tick.
    // A bit of its own beside the timing: the register reads it back, and a period of one tick does not tell it.
    pub debounced: bool,
    pub rising: Interrupt,
    pub falling: Interrupt,
}

impl Input {
    pub fn power_on() -> Input
        ensures { result ≡ new_input }
    {
        Input {
            timing: FilterTiming::new(1),
            samples: Samples::power_on(),
            debounced: false,
            rising: Interrupt::power_on(),
            falling: Interrupt::power_on(),
        }
    }

    /// The interrupts of a tick that took the level from `before` to `after`.
    fn raise_edges(&mut self, before: bool, after: bool)
        ensures { self.new ≡ raised_by before after self.old }
    {
        self.rising.raise(!before && after);
        self.falling.raise(before && !after);
    }

    /// One tick with the input at the given level.
    pub fn tick(&mut self, level: bool)
        ensures { self.new ≡ input_ticked level self.old }
    {
        let before = self.samples.level;
        let due = self.timing.tick();
        // Most ticks tell nothing new: then the level stays, and there is no edge.
        if !due || self.samples.is_steady(level) {
            return;
        }
        self.samples.tick(due, level);
        self.raise_edges(before, self.samples.level);
    }

    /// ADE and the shared period, as a write of the debouncing register sets them; the phase restarts.
    pub fn debounce(&mut self, on: bool, period: u64)
        ensures { self.new ≡ debounced_by on period self.old }
    {
        self.debounced = on;
        self.timing = FilterTiming::new(if on { period } else { 1 });
    }
}
