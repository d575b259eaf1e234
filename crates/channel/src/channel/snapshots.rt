//! What a snapshot trigger does to a channel.
ghost use Rattle.std.specs.Prelude.{◌≡◌};
ghost use Rattle.channel.specs.Snapshots.{collected_or_latched, snapped, ssi_snapped, triggered};

use super::Channel;
use crate::mode::Mode;
use controller::control::Start;
use controller::phase::Phase;

impl Channel {
    /// A transmission under way is collected; where there is none, the last completed word is latched.
    fn collect_or_latch(&mut self)
        ensures { self.new ≡ collected_or_latched self.old }
    {
        match self.mode {
            Mode::Ssi(Phase::Clocking(_)) => self.snapshot.collect(),
            _ => self.snapshot.latch(self.ssi.word),
        }
    }

    fn snapshot_ssi(&mut self)
        ensures { self.new ≡ ssi_snapped self.old }
    {
        match self.ssi.control.start {
            Start::Request => {
                self.request();
                self.collect_or_latch();
            }
            Start::Timer => self.snapshot.latch(self.ssi.word),
        }
    }

    fn snapshot_mode(&mut self)
        ensures { self.new ≡ snapped self.old }
    {
        match self.mode {
            Mode::Off(_) => self.snapshot.latch(0),
            Mode::Counter => self.snapshot.latch(self.counter.count.value),
            Mode::Ssi(_) => self.snapshot_ssi(),
        }
    }

    /// A trigger is heeded where the channel's MCR bit is 1.
    pub(super) fn trigger(&mut self)
        ensures { self.new ≡ triggered self.old }
    {
        if self.snapshot.enabled {
            self.snapshot_mode();
        }
    }
}
