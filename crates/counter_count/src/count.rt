//! The count with all that it depends on: settings, preload, clock divider and single-cycle bit.
ghost use Rattle.std.specs.Prelude.{◌≡◌};
ghost use Rattle.counter_count.specs.Counts.{commanded, command_outcome, configured, divided, driven, drive_outcome, due_in, load_of_event, loaded, moved_on, move_outcome, next_value, power_on_count, preload_loaded, restarted, runs, stepped, step_outcome, taken, take_outcome, turned, turn_outcome, wraps_at};
ghost use Rattle.counter_count.specs.Ticks.{advanced, advance_outcome, count_outcome, count_ticked};

use crate::levels::{Change, Levels};
use crate::step::Step;
use bits::flag;
use counter_control::control::Control;
use counter_control::modes::{IndexMode, SpecialMode};

/// What became of the count, as far as the status bits follow it.
// All six are told apart, Held from Loaded by MAT and the others by DIR, SGN, CRY and BOR, so that none of them is a None.
#[derive(Clone, Copy, PartialEq, Eq)]
pub enum Outcome {
    /// No step and no load, or a step that was not made.
    Held,
    Loaded,
    Up,
    Down,
    /// A step up that wraps.
    Carry,
    /// A step down that wraps.
    Borrow,
}

/// The count, and what its next value depends on besides the levels.
#[derive(Clone, Copy, Default)]
pub struct Count {
    pub control: Control,
    pub preload: u32,
    /// Ticks since the clock's period began.
    pub divider: u32,
    /// SGL: a single cycle runs.
    pub single: bool,
    pub value: u32,
}

impl Count {
    /// The count at power-on: all zero.
    pub fn power_on() -> Count
        ensures { result ≡ power_on_count }
    {
        Count::default()
    }

    // the divider's tick: whether the clock's period ends in it
    fn divide(&mut self) -> bool
        ensures answer { result ≡ due_in self.old }
        ensures after { self.new ≡ divided self.old }
    {
        let last = self.control.clock.ticks() - 1;
        if self.divider < last {
            self.divider += 1;
            return false;
        }
        self.divider = 0;
        true
    }

    // Up or down is a bool from `take` on, which leaves a Step with no other two; a comparison and DIR have it as a bit too.

    // whether a step from this value wraps
    fn wraps(&self, up: bool) -> bool
        ensures { result ≡ wraps_at up self.now.value }
    {
        if up {
            self.value == u32::MAX
        } else {
            self.value == 0
        }
    }

    // the value one step on
    fn next(&self, up: bool) -> u32
        ensures { result ≡ next_value up self.now.value }
    {
        if up {
            self.value.wrapping_add(1)
        } else {
            self.value.wrapping_sub(1)
        }
    }

    // whether steps are made: a single cycle wants its start
    fn runs(&self) -> bool
        ensures { result ≡ runs self.now.control.special self.now.single }
    {
        self.control.special != SpecialMode::SingleCycle || self.single
    }

    // a step that does not wrap
    fn move_on(&mut self, up: bool) -> Outcome
        ensures answer { result ≡ move_outcome up self.old }
        ensures after { self.new ≡ moved_on up self.old }
    {
        if !self.runs() {
            return Outcome::Held;
        }
        self.value = self.next(up);
        if up { Outcome::Up } else { Outcome::Down }
    }

    // a step that would wrap: it ends a single cycle, and divides by N with the preload
    fn turn(&mut self, up: bool) -> Outcome
        ensures answer { result ≡ turn_outcome self.old.control.special up }
        ensures after { self.new ≡ turned self.old.control.special up self.old }
    {
        match self.control.special {
            SpecialMode::SingleCycle => {
                self.single = false;
                return Outcome::Held;
            }
            SpecialMode::DivideByN => self.value = self.preload,
            SpecialMode::Cycling | SpecialMode::CyclingAlternate => self.value = self.next(up),
        }
        if up { Outcome::Carry } else { Outcome::Borrow }
    }

    fn take(&mut self, up: bool) -> Outcome
        ensures answer { result ≡ take_outcome up self.old }
        ensures after { self.new ≡ taken up self.old }
    {
        if self.wraps(up) {
            self.turn(up)
        } else {
            self.move_on(up)
        }
    }

    fn step(&mut self, step: Step) -> Outcome
        ensures answer { result ≡ step_outcome step self.old }
        ensures after { self.new ≡ stepped step self.old }
    {
        match step {
            Step::Hold => Outcome::Held,
            Step::Up => self.take(true),
            Step::Down => self.take(false),
        }
    }

    // a load starts a single cycle
    fn load(&mut self, value: u32)
        ensures { self.new ≡ loaded value self.old }
    {
        self.value = value;
        if self.control.special == SpecialMode::SingleCycle {
            self.single = true;
        }
    }

    // a load, where there is one, stands in place of the step
    fn drive(&mut self, load: Option<u32>, step: Step) -> Outcome
        ensures answer { result ≡ drive_outcome load step self.old }
        ensures after { self.new ≡ driven load step self.old }
    {
        match load {
            Some(value) => {
                self.load(value);
                Outcome::Loaded
            }
            None => self.step(step),
        }
    }

    // what an event on I loads
    fn event_load(&self, event: bool) -> Option<u32>
        ensures { result ≡ load_of_event self.now.control.index event self.now.preload }
    {
        match (self.control.index, event) {
            (IndexMode::Load, true) => Some(self.preload),
            (IndexMode::Reset, true) => Some(0),
            _ => None,
        }
    }

    /// A tick of the counter mode; the levels are those seen through the polarity bits.
    #[tactic(auto, unfolding(crate::specs::Ticks::advanced, crate::specs::Ticks::advance_outcome))]
    pub fn tick(&mut self, change: Change) -> Outcome
        ensures answer { result ≡ advance_outcome change.before change.after self.old }
        ensures after { self.new ≡ advanced change.before change.after self.old }
    {
        let due = self.divide();
        let step = Step::of(self.control.input, due, change).gated(
            self.control.index,
            change.after.i,
        );
        let load = self.event_load(change.i_rose());
        self.drive(load, step)
    }

    /// A tick in which no level changes: there is no event on I, and only the clock makes steps. The levels are as filtered.
    // `tick` gives the same; this short way stays beside it for speed, since almost every tick is such a one.
    #[tactic(auto, using(crate::proofs::Rests::rest_ticked, crate::proofs::Rests::rest_outcome))]
    pub fn rest(&mut self, levels: Levels) -> Outcome
        ensures answer { result ≡ count_outcome levels levels self.old }
        ensures after { self.new ≡ count_ticked levels levels self.old }
    {
        let due = self.divide();
        let step = Step::at_rest(self.control.input, due);
        if step == Step::Hold {
            return Outcome::Held;
        }
        let seen = levels.seen_by(&self.control);
        self.step(step.gated(self.control.index, seen.i))
    }

    /// The loads of a written command: LCNT is bit 1 and wins over RCNT, bit 0.
    pub fn command(&mut self, word: u32) -> Outcome
        ensures answer { result ≡ command_outcome word }
        ensures after { self.new ≡ commanded word self.old }
    {
        let load = match (flag(word, 1), flag(word, 0)) {
            (true, _) => Some(self.preload),
            (false, true) => Some(0),
            (false, false) => None,
        };
        self.drive(load, Step::Hold)
    }

    /// The preload is put in the count.
    pub fn load_preload(&mut self)
        ensures { self.new ≡ preload_loaded self.old }
    {
        self.load(self.preload);
    }

    /// New settings begin a clock period and end a single cycle.
    pub fn configure(&mut self, control: Control)
        ensures { self.new ≡ configured control self.old }
    {
        self.control = control;
        self.divider = 0;
        self.single = false;
    }

    /// A clock period begins.
    pub fn restart(&mut self)
        ensures { self.new ≡ restarted self.old }
    {
        self.divider = 0;
    }
}
