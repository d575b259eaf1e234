//! Snapshots over all channels: their status, their triggers, and what clears them.
ghost use Rattle.std.specs.Prelude.{◌≡◌, ◌^◌, ◌<◌};
ghost use Rattle.card.specs.Snapshots.{commanded, snapshots_cleared, status_of, timer_triggered, triggered, triggered_if};

use crate::Card;
use bits::flag;
use channel::act::{Act, Bit, Share};
use table::{act_on_all, gather};

/// MCR STA.
// Idle is status 00, one of the field's four names, so that no Option of the other three is plainer.
#[derive(Clone, Copy, PartialEq, Eq)]
pub enum SnapshotStatus {
    /// Nothing is collected or unread.
    Idle = 0,
    /// A transmission is to give a word.
    Collecting = 1,
    /// A word waits to be read.
    Unread = 2,
    /// A trigger met a status other than idle.
    Overflow = 3,
}

impl Card {
    pub(crate) fn snapshot_status(&self) -> SnapshotStatus
        ensures { result ≡ status_of self.now }
    {
        if self.shared.overflow {
            return SnapshotStatus::Overflow;
        }
        if gather(&self.channels, Share::Single(Bit::Collecting)) != 0 {
            return SnapshotStatus::Collecting;
        }
        if gather(&self.channels, Share::Single(Bit::Unread)) != 0 {
            return SnapshotStatus::Unread;
        }
        SnapshotStatus::Idle
    }

    /// A snapshot of every enabled channel; overflow tells that an earlier one was not done with.
    fn trigger(&mut self)
        ensures { self.new ≡ triggered self.old }
    {
        self.shared.overflow = self.snapshot_status() != SnapshotStatus::Idle;
        act_on_all(&mut self.channels, Act::Snapshot);
    }

    /// At MCR ITRIG the timer's expiry is a trigger.
    pub(crate) fn trigger_by_timer(&mut self, expired: bool)
        ensures { self.new ≡ timer_triggered expired self.old }
    {
        if expired && self.shared.timer_triggers {
            self.trigger();
        }
    }

    fn clear_snapshots(&mut self, one: bool)
        ensures { self.new ≡ snapshots_cleared one self.old }
    {
        if one {
            self.shared.overflow = false;
            act_on_all(&mut self.channels, Act::ClearSnapshot);
        }
    }

    fn trigger_if(&mut self, one: bool)
        ensures { self.new ≡ triggered_if one self.old }
    {
        if one {
            self.trigger();
        }
    }

    /// Global Command: the loads, then MCR CLR, then MCR TRIG.
    pub(crate) fn command(&mut self, word: u32)
        ensures { self.new ≡ commanded word self.old }
    {
        act_on_all(&mut self.channels, Act::Load { word });
        self.clear_snapshots(flag(word, 9));
        self.trigger_if(flag(word, 8));
    }
}
