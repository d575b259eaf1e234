//! What a debounce filter has sampled of one line.
ghost use Rattle.std.specs.Prelude.{◌≡◌};
ghost use Rattle.filter.specs.Filters.{line_filtered, no_samples, steady_at, taken};
ghost use Rattle.filter.specs.Settling.{Settles};

/// The samples of one line, and the level that they settled.
#[derive(Clone, Copy, Default)]
pub struct Samples {
    /// The last sample.
    pub last: bool,
    /// The sample before it.
    pub before: bool,
    /// What registers and counters see of the line.
    pub level: bool,
}

impl Samples {
    /// A line that has been 0 so far.
    pub fn power_on() -> Samples
        ensures { result ≡ no_samples }
    {
        Samples::default()
    }

    /// One more sample; the level follows three that are equal.
    pub fn take(&mut self, line: bool)
        ensures { self.new ≡ taken line self.old }
    {
        if line == self.last && line == self.before {
            self.level = line;
        }
        self.before = self.last;
        self.last = line;
    }

    /// Whether one more sample at this level would alter nothing.
    pub fn is_steady(&self, line: bool) -> bool
        ensures { result ≡ steady_at line self.now }
    {
        // All three looks and no jump at each: every line asks at every sample.
        (line == self.last) & (line == self.before) & (line == self.level)
    }

    /// One tick with the line at the given level; `due` says that the filter samples in it.
    pub fn tick(&mut self, due: bool, line: bool)
        ensures after { self.new ≡ line_filtered due line self.old }
        ensures settles { Settles }
    {
        if !due {
            return;
        }
        // Most samples tell nothing new, and a look costs less than taking them.
        if self.is_steady(line) {
            return;
        }
        self.take(line);
    }
}
