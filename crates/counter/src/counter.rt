//! The counter of one channel, and its tick.
ghost use Rattle.std.specs.Prelude.{◌≡◌};
ghost use Rattle.counter.specs.Counters.{index_cause, indexed, latched, latch_cause, marked, match_cause, power_on_counter, rest_causes, tick_causes, ticked};

use crate::flags::Flags;
use counter_control::modes::IndexMode;
use counter_count::count::{Count, Outcome};
use counter_count::levels::{Change, Levels};

/// What a tick gives as causes of interrupts.
#[derive(Clone, Copy)]
pub struct Causes {
    /// The count came to the compare value.
    pub matched: bool,
    /// The index mode's event came.
    pub control: bool,
}

/// The count, the compare value, the latched count and the status bits.
// The latched count is no Option beside DRL: the Data Register shows it when the lock is let go, and 0 before the first.
#[derive(Clone, Copy, Default)]
pub struct Counter {
    pub count: Count,
    pub compare: u32,
    pub latched: u32,
    pub flags: Flags,
}

impl Counter {
    /// The counter at power-on: all zero.
    pub fn power_on() -> Counter
        ensures { result ≡ power_on_counter }
    {
        Counter::default()
    }

    // status bits and the cause of what became of the count; a step or a load that ends at compare is a match
    pub(crate) fn mark(&mut self, outcome: Outcome) -> bool
        ensures answer { result ≡ match_cause outcome self.old }
        ensures after { self.new ≡ marked outcome self.old }
    {
        self.flags.note(outcome);
        if outcome == Outcome::Held || self.count.value != self.compare {
            return false;
        }
        self.flags.matched = true;
        true
    }

    // an event of Latch on I: the lock holds the first count until it is released
    fn latch(&mut self) -> bool
        ensures answer { result ≡ latch_cause self.old }
        ensures after { self.new ≡ latched self.old }
    {
        if self.flags.locked {
            self.flags.overflow = true;
            return false;
        }
        self.flags.locked = true;
        self.latched = self.count.value;
        true
    }

    // the index mode's event, from the levels of I
    fn index(&mut self, mode: IndexMode, change: Change) -> bool
        ensures answer { result ≡ index_cause mode change.before.i change.after.i self.old }
        ensures after { self.new ≡ indexed mode change.before.i change.after.i self.old }
    {
        match mode {
            IndexMode::Ignore => false,
            IndexMode::Load | IndexMode::Reset => change.i_rose(),
            IndexMode::Gate => change.i_fell(),
            IndexMode::Latch => change.i_rose() && self.latch(),
        }
    }

    /// A tick of the counter mode; the levels are as filtered.
    #[tactic(auto, unfolding(crate::specs::Counters::ticked, crate::specs::Counters::tick_causes))]
    pub fn tick(&mut self, change: Change) -> Causes
        ensures answer { result ≡ tick_causes change.before change.after self.old }
        ensures after { self.new ≡ ticked change.before change.after self.old }
    {
        let settings = self.count.control;
        let seen = change.seen_by(&settings);
        let outcome = self.count.tick(seen);
        let matched = self.mark(outcome);
        self.flags.point(settings.input, seen.after.b);
        let control = self.index(settings.index, seen);
        Causes { matched, control }
    }

    /// A tick in which no level changes; says whether the count came to the compare value. The index mode has no event then.
    // `tick` gives the same; this short way stays beside it for speed, since almost every tick is such a one.
    #[tactic(auto, using(crate::proofs::Rests::rest_ticked, crate::proofs::Rests::rest_causes_lem))]
    pub fn rest(&mut self, levels: Levels) -> bool
        ensures answer { rest_causes result ≡ tick_causes levels levels self.old }
        ensures after { self.new ≡ ticked levels levels self.old }
    {
        let settings = self.count.control;
        let outcome = self.count.rest(levels);
        let matched = self.mark(outcome);
        let seen = levels.seen_by(&settings);
        self.flags.point(settings.input, seen.b);
        matched
    }
}
