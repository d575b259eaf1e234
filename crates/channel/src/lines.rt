//! The filters of a channel's three lines.
ghost use Rattle.std.specs.Prelude.{◌≡◌, true};
ghost use Rattle.channel.specs.Lines.{former_levels, levels_of, lines_restarted, lines_sampled, lines_steady, lines_ticked, new_lines};

use counter_count::levels::Levels;
use filter::samples::Samples;
use filter::timing::FilterTiming;

/// A filter for each line: A, B (SSI data) and I. They have one debouncing register, so they sample together.
#[derive(Clone, Copy)]
pub struct Lines {
    pub timing: FilterTiming,
    pub a: Samples,
    pub b: Samples,
    pub i: Samples,
}

impl Lines {
    pub(crate) fn power_on(period: u64) -> Lines
        ensures { result ≡ new_lines period }
    {
        Lines {
            timing: FilterTiming::new(period),
            a: Samples::power_on(),
            b: Samples::power_on(),
            i: Samples::power_on(),
        }
    }

    /// A sample of every line.
    fn sample(&mut self, seen: Levels)
        ensures { self.new ≡ lines_sampled true seen self.old }
    {
        self.a.take(seen.a);
        self.b.take(seen.b);
        self.i.take(seen.i);
    }

    /// Whether samples at these levels would alter nothing.
    fn is_steady(&self, seen: Levels) -> bool
        ensures { result ≡ lines_steady seen self.now }
    {
        self.a.is_steady(seen.a) && self.b.is_steady(seen.b) && self.i.is_steady(seen.i)
    }

    /// One tick; answers the levels before it where a sample told something new, so that they may have changed.
    pub(crate) fn tick(&mut self, seen: Levels) -> Option<Levels>
        ensures answer { result ≡ former_levels seen self.old }
        ensures after { self.new ≡ lines_ticked seen self.old }
    {
        if !self.timing.tick() {
            return None;
        }
        // Most samples tell nothing new, and a look costs less than taking them.
        if self.is_steady(seen) {
            return None;
        }
        let before = self.levels();
        self.sample(seen);
        Some(before)
    }

    /// What the card sees of the lines.
    pub(crate) fn levels(&self) -> Levels
        ensures { result ≡ levels_of self.now }
    {
        Levels {
            a: self.a.level,
            b: self.b.level,
            i: self.i.level,
        }
    }

    /// A new period for all three; samples and levels stay.
    pub(crate) fn restart(&mut self, period: u64)
        ensures { self.new ≡ lines_restarted period self.old }
    {
        self.timing = FilterTiming::new(period);
    }
}
