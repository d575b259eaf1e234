//! What a tick does to a channel.
ghost use Rattle.std.specs.Prelude.{◌≡◌};
ghost use Rattle.channel.specs.Lines.{levels_before};
ghost use Rattle.channel.specs.Ticks.{channel_ticked, counted, finished, new_channel, raised_both, requested, ssi_worked, timer_requested, transmitted, waits, worked};

use super::Channel;
use crate::lines::Lines;
use crate::mode::{Mode, OffCode};
use controller::control::Start;
use controller::phase::Phase;
use controller::registers::{Completed, Ssi};
use counter::counter::Counter;
use counter_count::levels::{Change, Levels};
use filter::debounce::Debounce;
use parts::input::Input;
use parts::interrupt::Interrupt;
use parts::snapshot::Snapshot;

impl Channel {
    pub fn power_on() -> Channel
        ensures { result ≡ new_channel }
    {
        let debounce = Debounce::power_on();
        Channel {
            lines: Lines::power_on(debounce.period()),
            debounce,
            input: Input::power_on(),
            mode: Mode::Off(OffCode::Zeros),
            counter: Counter::power_on(),
            ssi: Ssi::power_on(),
            snapshot: Snapshot::power_on(),
            valid: Interrupt::power_on(),
            fault: Interrupt::power_on(),
            output: false,
            test_output: false,
        }
    }

    fn raise(&mut self, valid: bool, fault: bool)
        ensures { self.new ≡ raised_both valid fault self.old }
    {
        self.valid.raise(valid);
        self.fault.raise(fault);
    }

    /// A completed transmission is told to the interrupts and to the snapshot.
    fn finish(&mut self, completed: Option<Completed>)
        ensures { self.new ≡ finished completed self.old }
    {
        if let Some(Completed { word, fault }) = completed {
            self.raise(true, fault);
            self.snapshot.complete(word);
        }
    }

    /// A request for a transmission, which only an SSI channel heeds.
    pub(super) fn request(&mut self)
        ensures { self.new ≡ requested self.old }
    {
        if let Mode::Ssi(phase) = &mut self.mode {
            self.ssi.request(phase);
        }
    }

    /// The timer's expiry is a request at START 01.
    fn request_by_timer(&mut self, expired: bool)
        ensures { self.new ≡ timer_requested expired self.old }
    {
        if expired && self.ssi.control.start == Start::Timer {
            self.request();
        }
    }

    /// Whether the SSI controller waits: then only a request makes it work.
    fn is_waiting(&self) -> bool
        ensures { result ≡ waits self.now }
    {
        matches!(self.mode, Mode::Ssi(Phase::Waiting))
    }

    /// Counter Mode, with the levels after a tick, and with those before it where they may have changed.
    fn count(&mut self, former: Option<Levels>, after: Levels)
        ensures { self.new ≡ counted (levels_before former after) after self.old }
    {
        match former {
            Some(before) => {
                let causes = self.counter.tick(Change { before, after });
                self.raise(causes.matched, causes.control);
            }
            None => {
                let matched = self.counter.rest(after);
                self.valid.raise(matched);
            }
        }
    }

    /// The controller's tick, with the filtered data level.
    fn transmit(&mut self, level: bool)
        ensures { self.new ≡ transmitted level self.old }
    {
        if let Mode::Ssi(phase) = &mut self.mode {
            let completed = self.ssi.tick(phase, level);
            self.finish(completed);
        }
    }

    /// An SSI channel's tick. The timer's request meets the controller as it was before the tick; a transmission that
    /// it starts begins with the next one.
    fn work_ssi(&mut self, level: bool, expired: bool)
        ensures { self.new ≡ ssi_worked level expired self.old }
    {
        let waiting = self.is_waiting();
        self.request_by_timer(expired);
        if !waiting {
            self.transmit(level);
        }
    }

    /// The working part's tick, with the levels after it, and with those before it where they may have changed.
    fn work(&mut self, former: Option<Levels>, after: Levels, expired: bool)
        ensures { self.new ≡ worked (levels_before former after) after expired self.old }
    {
        match self.mode {
            Mode::Off(_) => {}
            Mode::Counter => self.count(former, after),
            Mode::Ssi(_) => self.work_ssi(after.b, expired),
        }
    }

    /// One tick with the channel's lines and input at these levels; `expired` says that the interval timer did.
    pub fn tick(&mut self, lines: Levels, input: bool, expired: bool)
        ensures { self.new ≡ channel_ticked lines input expired self.old }
    {
        let former = self.lines.tick(lines);
        self.input.tick(input);
        let after = self.lines.levels();
        self.work(former, after, expired);
    }
}
