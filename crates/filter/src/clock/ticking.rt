//! What a filter's clock does in a tick, and how the table's numbers become a clock and numbers again.
ghost use Rattle.std.specs.Prelude.{◌≡◌};
ghost use Rattle.filter.specs.Filters.{clock_made, clock_ticked, is_due, new_timing, samples_in, ticked, timing_of};

use super::FilterClock;
use crate::timing::FilterTiming;

impl FilterClock {
    /// The clock of two plain numbers, if a filter can have them.
    // An Option and no TryFrom: there is one reason, and no caller has a use for an error.
    pub fn from_timing(timing: FilterTiming) -> Option<FilterClock>
        ensures { clock_made timing result }
    {
        let FilterTiming { period, phase } = timing;
        if phase < period {
            Some(FilterClock { period, phase })
        } else {
            None
        }
    }

    pub fn phase(&self) -> u64
        ensures { result ≡ (timing_of self.now).phase }
    {
        self.phase
    }

    /// One tick; whether the filter samples in it, which is each period's last.
    pub fn tick(&mut self) -> bool
        ensures answer { result ≡ is_due (timing_of self.old) }
        ensures after { timing_of self.new ≡ clock_ticked (timing_of self.old) }
    {
        let next = self.phase + 1;
        if next < self.period {
            self.phase = next;
            return false;
        }
        self.phase = 0;
        true
    }
}

impl FilterTiming {
    /// The first sample comes in the last tick of the first period.
    pub fn new(period: u64) -> FilterTiming
        ensures { result ≡ new_timing period }
    {
        FilterTiming { period, phase: 0 }
    }

    /// One tick; whether the filter samples in it.
    pub fn tick(&mut self) -> bool
        ensures answer { result ≡ samples_in self.old }
        ensures after { self.new ≡ ticked self.old }
    {
        let Some(mut clock) = FilterClock::from_timing(*self) else {
            // Numbers that no filter has are taken as period 1 and phase 0.
            *self = FilterTiming::new(1);
            return true;
        };
        let due = clock.tick();
        self.phase = clock.phase();
        due
    }
}
