//! How a channel changes its mode.
ghost use Rattle.std.specs.Prelude.{◌≡◌};
ghost use Rattle.channel.specs.Modes.{became_counter, became_off, became_ssi, departed, mode_written};

use super::Channel;
use crate::mode::{Mode, OffCode};
use controller::phase::Phase;

impl Channel {
    /// Leaving Counter Mode unlocks the Data Register; leaving SSI mode drops a transmission, which is collected as 0.
    fn depart(&mut self)
        ensures { self.new ≡ departed self.old }
    {
        match &mut self.mode {
            Mode::Off(_) => {}
            Mode::Counter => self.counter.leave(),
            Mode::Ssi(phase) => {
                if phase.leave() {
                    self.snapshot.complete(0);
                }
            }
        }
    }

    fn become_off(&mut self, code: OffCode)
        ensures { self.new ≡ became_off code self.old }
    {
        self.depart();
        self.mode = Mode::Off(code);
    }

    fn become_counter(&mut self)
        ensures { self.new ≡ became_counter self.old }
    {
        if self.in_counter_mode() {
            return;
        }
        self.depart();
        self.counter.enter();
        self.mode = Mode::Counter;
    }

    fn become_ssi(&mut self)
        ensures { self.new ≡ became_ssi self.old }
    {
        if matches!(self.mode, Mode::Ssi(_)) {
            return;
        }
        self.depart();
        self.mode = Mode::Ssi(Phase::Waiting);
    }

    /// MODE as written; the mode that the channel has already is no change.
    // MODE's codes as numbers, here and in `mode_word`: a channel in SSI mode keeps its phase, so no conversion gives a mode.
    pub(super) fn write_mode(&mut self, code: u32)
        ensures { self.new ≡ mode_written code self.old }
    {
        match code {
            0 => self.become_off(OffCode::Zeros),
            1 => self.become_ssi(),
            2 => self.become_counter(),
            _ => self.become_off(OffCode::Ones),
        }
    }
}
